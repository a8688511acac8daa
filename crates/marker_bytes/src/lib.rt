// Two strings of bytes compared: is a line the motif, does the motif stand here? Bytes are compared as bytes; `same_bytes` promises the test of the definitions.
#![tactic(auto)]

ghost use Rattle.std.specs.Prelude.{◌≡◌};
ghost use Rattle.words.specs.Reads.{same};

// are these the same bytes? The one place that ties `==` to the definition
#[tactic(auto, using(crate::proofs::Bytes::same_told))]
pub fn same_bytes(a: &[u8], b: &[u8]) -> bool
    ensures { result ≡ same a.now b.now }
{
    a == b
}
