// How far a run of bytes goes at the front of a text.
ghost use Rattle.std.specs.Prelude.{◌≡◌, ◌≤◌, ℕ, Bool, length};
ghost use Rattle.std.specs.List.{prefix_len};
ghost use Rattle.rule_tokens.specs.Runs.{IsTest};

// How many bytes at the front pass a test.
pub(crate) fn run_len<F: Fn(u8) -> bool>(bytes: &[u8], passes: F) -> usize
    requires { F.IsAlwaysCallable passes }
    ensures within { result ≤ length bytes.now }
    ensures run { (test : ℕ → Bool) → IsTest (F.post passes) test → result ≡ prefix_len test bytes.now }
{
    bytes
        .iter()
        .position(|b| !passes(*b))
        .unwrap_or(bytes.len())
}
