// The client end as a host in C calls it.
#![tactic(auto)]

ghost use Rattle.std.specs.Prelude.{◌≡◌};
ghost use Rattle.client_face.specs.Face.{dvc_received, dvc_closed, dvc_started};

// Zeroes the store and makes an empty table of the state: 0, or 1 where one of them is not of its size, and then nothing is
// written.
#[unsafe(no_mangle)]
pub extern "C" fn dvc_start(state: &mut [u8], store: &mut [u8]) -> u32
    ensures value { result ≡ (dvc_started state.old store.old).answer }
    ensures state_after { state.new ≡ (dvc_started state.old store.old).state }
    ensures store_after { store.new ≡ (dvc_started state.old store.old).store }
{
    client_face::dvc_start(state, store)
}

// A PDU from the server, with the names that the host listens for. The reply goes to the reply buffer.
#[unsafe(no_mangle)]
pub extern "C" fn dvc_receive(
    state: &mut [u8],
    store: &mut [u8],
    list: &[u8],
    pdu: &[u8],
    reply: &mut [u8],
) -> u64
    ensures value { result ≡ (dvc_received state.old store.old
        list.now pdu.now reply.old).answer }
    ensures state_after { state.new ≡ (dvc_received state.old store.old
        list.now pdu.now reply.old).state }
    ensures store_after { store.new ≡ (dvc_received state.old store.old
        list.now pdu.now reply.old).store }
    ensures reply_after { reply.new ≡ (dvc_received state.old store.old
        list.now pdu.now reply.old).reply }
{
    client_face::dvc_receive(state, store, list, pdu, reply)
}

// The host closes a channel. The reply is a Close.
#[unsafe(no_mangle)]
pub extern "C" fn dvc_local_close(
    state: &mut [u8],
    store: &mut [u8],
    number: u32,
    reply: &mut [u8],
) -> u64
    ensures value { result ≡ (dvc_closed state.old store.old number reply.old).answer }
    ensures state_after { state.new ≡ (dvc_closed state.old store.old number reply.old).state }
    ensures store_after { store.new ≡ (dvc_closed state.old store.old number reply.old).store }
    ensures reply_after { reply.new ≡ (dvc_closed state.old store.old number reply.old).reply }
{
    client_face::dvc_local_close(state, store, number, reply)
}
