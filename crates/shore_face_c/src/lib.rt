// The shore end as a host in C calls it.
#![tactic(auto)]

ghost use Rattle.std.specs.Prelude.{◌≡◌};
ghost use Rattle.shore_face.specs.Face.{dvc_shore_received, dvc_shore_closed, dvc_shore_requested, dvc_shore_opened, dvc_shore_started};

// Zeroes the store and makes an empty table of the state: 0, or 1 where one of them is not of its size, and then nothing is
// written.
#[unsafe(no_mangle)]
pub extern "C" fn dvc_shore_start(state: &mut [u8], store: &mut [u8]) -> u32
    ensures value { result ≡ (dvc_shore_started state.old store.old).answer }
    ensures state_after { state.new ≡ (dvc_shore_started state.old store.old).state }
    ensures store_after { store.new ≡ (dvc_shore_started state.old store.old).store }
{
    shore_face::dvc_shore_start(state, store)
}

// A PDU from the client. Nothing is sent in answer to one; the reply buffer is lent as at the client end.
#[unsafe(no_mangle)]
pub extern "C" fn dvc_shore_receive(
    state: &mut [u8],
    store: &mut [u8],
    pdu: &[u8],
    reply: &mut [u8],
) -> u64
    ensures value { result ≡ (dvc_shore_received state.old store.old pdu.now reply.old).answer }
    ensures state_after { state.new ≡ (dvc_shore_received state.old store.old pdu.now reply.old).state }
    ensures store_after { store.new ≡ (dvc_shore_received state.old store.old pdu.now reply.old).store }
    ensures reply_after { reply.new ≡ (dvc_shore_received state.old store.old pdu.now reply.old).reply }
{
    shore_face::dvc_shore_receive(state, store, pdu, reply)
}

// The host closes a channel. The reply is a Close.
#[unsafe(no_mangle)]
pub extern "C" fn dvc_shore_local_close(
    state: &mut [u8],
    store: &mut [u8],
    number: u32,
    reply: &mut [u8],
) -> u64
    ensures value { result ≡ (dvc_shore_closed state.old store.old number reply.old).answer }
    ensures state_after { state.new ≡ (dvc_shore_closed state.old store.old number reply.old).state }
    ensures store_after { store.new ≡ (dvc_shore_closed state.old store.old number reply.old).store }
    ensures reply_after { reply.new ≡ (dvc_shore_closed state.old store.old number reply.old).reply }
{
    shore_face::dvc_shore_local_close(state, store, number, reply)
}

// The Capabilities request, once, of the host's version and charges. It goes to the buffer of a written PDU.
#[unsafe(no_mangle)]
pub extern "C" fn dvc_shore_request(
    state: &mut [u8],
    version: u16,
    charge0: u16,
    charge1: u16,
    charge2: u16,
    charge3: u16,
    out: &mut [u8],
) -> u64
    ensures value { result ≡ (dvc_shore_requested state.old version
        (record { class0 = charge0; class1 = charge1; class2 = charge2; class3 = charge3 }) out.old).answer }
    ensures state_after { state.new ≡ (dvc_shore_requested state.old version
        (record { class0 = charge0; class1 = charge1; class2 = charge2; class3 = charge3 }) out.old).state }
    ensures out_after { out.new ≡ (dvc_shore_requested state.old version
        (record { class0 = charge0; class1 = charge1; class2 = charge2; class3 = charge3 }) out.old).out }
{
    shore_face::dvc_shore_request(state, version, charge0, charge1, charge2, charge3, out)
}

// The host opens a channel by its listener's name and a class. The Create request goes to the buffer of a written
// PDU.
#[unsafe(no_mangle)]
pub extern "C" fn dvc_shore_open(state: &mut [u8], name: &[u8], class: u8, out: &mut [u8]) -> u64
    ensures value { result ≡ (dvc_shore_opened state.old name.now class out.old).answer }
    ensures state_after { state.new ≡ (dvc_shore_opened state.old name.now class out.old).state }
    ensures out_after { out.new ≡ (dvc_shore_opened state.old name.now class out.old).out }
{
    shore_face::dvc_shore_open(state, name, class, out)
}
