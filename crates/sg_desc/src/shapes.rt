ghost use Rattle.std.specs.Prelude.{◌≡◌, ◌==◌, ◌<◌, ◌≤◌, ℕ, true, false};
ghost use Rattle.std.specs.Int.{bit_at};

/// Which fields of an object hold references; all others hold numbers.
#[derive(Clone, Copy, Debug, PartialEq, Eq)]
pub enum Descriptor {
    /// No field does.
    PtrFree,
    /// The `count` fields from `first` on do; there is at least one, and they end at 62 or before.
    Run { first: u32, count: u32 },
    /// Field i does where bit i of `bits` is set; `bits` is below 2^60.
    Bitmap { bits: u64 },
    /// All fields do, and an object has as many as it was made with.
    VectorRefs,
    /// No field does, and an object has as many as it was made with.
    VectorPlain,
    /// Both fields of a pair do, the key and the value. The pair doesn't keep its key, and keeps its value only with its key.
    Ephemeron,
}

impl Descriptor {
    ghost use Rattle.sg_desc.specs.Shapes.{holds_reference, is_strong};

    /// Whether field `field` of an object of `len` fields holds a reference.
    pub fn is_ref(&self, field: u32, len: u32) -> bool
        ensures { result ≡ holds_reference self.now field len }
    {
        let _ = len;
        match *self {
            Descriptor::PtrFree => false,
            Descriptor::Run { first, count } => first <= field && field - first < count,
            Descriptor::Bitmap { bits } => has_bit(bits, field),
            Descriptor::VectorRefs => true,
            Descriptor::VectorPlain => false,
            Descriptor::Ephemeron => true,
        }
    }

    /// The same, but for both fields of a pair, which don't keep what they refer to.
    pub fn is_strong(&self, field: u32, len: u32) -> bool
        ensures { result ≡ is_strong self.now field len }
    {
        match *self {
            Descriptor::Ephemeron => false,
            Descriptor::PtrFree => false,
            Descriptor::Run { .. } => self.is_ref(field, len),
            Descriptor::Bitmap { .. } => self.is_ref(field, len),
            Descriptor::VectorRefs => true,
            Descriptor::VectorPlain => false,
        }
    }

    /// The first strong field from `from` on, of an object of `len` fields; `len` where there is none. Constant.
    pub fn next_strong(&self, from: u32, len: u32) -> u32
        requires { from ≤ len }
        ensures from { from ≤ result }
        ensures within { result ≤ len }
        ensures passed { (i : ℕ) → from ≤ i → i < result → is_strong self.now i len ≡ false }
        ensures strong { result < len → is_strong self.now result len ≡ true }
    {
        match *self {
            Descriptor::PtrFree => len,
            Descriptor::Run { first, count } => next_in_run(first, count, from, len),
            Descriptor::Bitmap { bits } => next_bit(bits, from, len),
            Descriptor::VectorRefs => from,
            Descriptor::VectorPlain => len,
            Descriptor::Ephemeron => len,
        }
    }
}

ghost use Rattle.std.specs.Prelude.{◌+◌, ◌&&◌, nat_le, nat_lt};

// The first of the `count` fields from `first` on that is `from` or behind it; `len` where none is below it.
fn next_in_run(first: u32, count: u32, from: u32, len: u32) -> u32
    requires { from ≤ len }
    ensures from { from ≤ result }
    ensures within { result ≤ len }
    ensures passed { (i : ℕ) → from ≤ i → i < result → (nat_le first i && nat_lt i (first + count)) ≡ false }
    ensures strong { result < len → (nat_le first result && nat_lt result (first + count)) ≡ true }
{
    let next = if from < first { first } else { from };
    if next < len && next - first < count {
        next
    } else {
        len
    }
}

// The first bit from `from` on that is set; `len` where none below it is.
fn next_bit(bits: u64, from: u32, len: u32) -> u32
    requires { from ≤ len }
    ensures from { from ≤ result }
    ensures within { result ≤ len }
    ensures passed { (i : ℕ) → from ≤ i → i < result → (bit_at bits i == 1) ≡ false }
    ensures strong { result < len → (bit_at bits result == 1) ≡ true }
{
    if 64 <= from {
        return len;
    }
    let rest = bits >> from;
    if rest == 0 {
        return len;
    }
    let next = from + rest.trailing_zeros();
    if next < len { next } else { len }
}

/// How many fields the objects of a class have, and which of them hold references. For a class of vectors `fields` is 0:
/// each object has its own number of fields.
#[derive(Clone, Copy, Debug, PartialEq, Eq)]
pub struct Shape {
    pub fields: u32,
    pub kind: Descriptor,
}

fn has_bit(bits: u64, field: u32) -> bool
    ensures { result ≡ (bit_at bits field == 1) }
{
    field < 64 && (bits >> field) & 1 == 1
}
