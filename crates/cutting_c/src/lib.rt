// The cutter as a host in C calls it.
#![tactic(auto)]

ghost use Rattle.std.specs.Prelude.{◌≡◌};
ghost use Rattle.cutting.specs.Cutting.{cut_at, cut_buffer, packed};

// The PDU's length times 65,536 and the next offset added, or the refusal's number.
#[unsafe(no_mangle)]
pub extern "C" fn dvc_cut(number: u32, message: &[u8], offset: usize, out: &mut [u8]) -> u32
    ensures value { result ≡ packed (cut_at number message.now offset out.old) }
    ensures out_after { out.new ≡ cut_buffer number message.now offset out.old }
{
    cutting::dvc_cut(number, message, offset, out)
}
