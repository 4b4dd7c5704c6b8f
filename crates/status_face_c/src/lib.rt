// What a host in C asks of a state, as it calls for it.
#![tactic(auto)]

ghost use Rattle.std.specs.Prelude.{◌≡◌};
ghost use Rattle.status_face.specs.Status.{dvc_totals, dvc_count};

// The open channels and the bytes still to come.
#[unsafe(no_mangle)]
pub extern "C" fn dvc_totals(state: &[u8]) -> u64
    ensures { result ≡ dvc_totals state.now }
{
    status_face::dvc_totals(state)
}

// The messages handed up on an open channel since its opening.
#[unsafe(no_mangle)]
pub extern "C" fn dvc_count(state: &[u8], number: u32) -> u64
    ensures { result ≡ dvc_count state.now number }
{
    status_face::dvc_count(state, number)
}
