// Listener names in UTF-8 as a host in C calls for them.
#![tactic(auto)]

ghost use Rattle.std.specs.Prelude.{◌≡◌};
ghost use Rattle.codepage.specs.Names.{utf8_of, name_of, answer_for, buffer_for, number_for};

// A name in UTF-8.
#[unsafe(no_mangle)]
pub extern "C" fn dvc_name_to_utf8(name: &[u8], out: &mut [u8]) -> i64
    ensures value { result ≡ number_for (answer_for (utf8_of name.now) out.old) }
    ensures out_after { out.new ≡ buffer_for (utf8_of name.now) out.old }
{
    codepage::dvc_name_to_utf8(name, out)
}

// The name of a text.
#[unsafe(no_mangle)]
pub extern "C" fn dvc_name_from_utf8(text: &[u8], out: &mut [u8]) -> i64
    ensures value { result ≡ number_for (answer_for (name_of text.now) out.old) }
    ensures out_after { out.new ≡ buffer_for (name_of text.now) out.old }
{
    codepage::dvc_name_from_utf8(text, out)
}
