// Strict reading as a host in C calls it.
#![tactic(auto)]

ghost use Rattle.std.specs.Prelude.{◌≡◌};
ghost use Rattle.reading.specs.Strict.{strict_verdict};

// 0 for a PDU that strict reading accepts, or the refusal's number. The client sent the PDU where `from_server` is 0, and else
// the server.
#[unsafe(no_mangle)]
pub extern "C" fn dvc_strict(pdu: &[u8], from_server: u32) -> u32
    ensures { result ≡ strict_verdict from_server pdu.now }
{
    reading::dvc_strict(pdu, from_server)
}
