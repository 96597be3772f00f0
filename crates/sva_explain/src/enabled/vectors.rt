//! ITag Vectors: 32 bits, bit T for ITag T (PCI Express Base 5.0, section 10.3.2).

ghost use Rattle.std.specs.Prelude.{◌≡◌};
ghost use Rattle.sva_explain.specs.Accepted.{vector_of};
ghost use Rattle.sva_model.specs.Labels.{is_set, names_none};

/// Does the vector name the ITag?
pub fn is_set(vector: u32, itag: u64) -> bool
    ensures { result ≡ is_set vector itag }
{
    itag < 32 && (vector >> itag) & 1 == 1
}

/// Does the vector name no ITag?
pub fn names_none(vector: u32) -> bool
    ensures { result ≡ names_none vector }
{
    vector == 0
}

/// The vector that names an ITag, and no other; one of 32 or above none.
pub fn vector_of(itag: u64) -> u32
    ensures { result ≡ vector_of itag }
{
    if itag > 31 {
        return 0;
    }
    1 << itag as u32
}
