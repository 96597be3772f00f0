//! ITag Vectors: 32 bits, bit T for tag T.
ghost use Rattle.std.specs.Prelude.{◌≡◌, ◌+◌, ◌^◌, ◌<◌, if◌then◌else◌};
ghost use Rattle.sva_itags.specs.Vector.{is_named};

/// Whether an ITag Vector names a tag, 0 to 31: its bit T stands for tag T (PCI Express Base 5.0, section 10.3.2).
pub fn is_tag_named(vector: u32, tag: usize) -> bool
    requires { tag < 32 }
    ensures { result ≡ is_named vector tag }
{
    (vector >> tag) & 1 == 1
}

/// The vector with one tag more, which is above all tags that it names.
#[tactic(auto, using(crate::proofs::VectorLemmas::or_above))]
pub(crate) fn with_bit(vector: u32, tag: usize, named: bool) -> u32
    requires within { tag < 32 }
    requires above { vector < 2 ^ tag }
    ensures { result ≡ (if named then vector + 2 ^ tag else vector) }
{
    if named { vector | (1 << tag) } else { vector }
}
