// The four kinds of number that are never taken for one another (01, "What changes shape"), and the ways from a number to a slot
// number, a description and a handle: no other crate makes one from a number (tests/only_ids.sh).
#![tactic(auto)]

ghost use Rattle.std.specs.Prelude.{◌≡◌};
ghost use Rattle.ids.specs.Ids.{slot_of, description_of, descriptions_in, handle_of};

// A place in the slot array; 64 is none.
#[repr(C)]
#[derive(Clone, Copy, Debug, PartialEq, Eq)]
pub struct SlotNo(pub u8);

// What callers and drivers name a call by. A request id, its widest form, has 64 bits.
#[repr(C)]
#[derive(Clone, Copy, Debug, PartialEq, Eq)]
pub struct Tag(pub u64);

// An open file description, the Rust's `Arc<LockedFileDescription>`.
#[repr(C)]
#[derive(Clone, Copy, Debug, PartialEq, Eq)]
pub struct Description(pub u8);

// What stands at a list's places that name nothing.
pub const BLANK: Description = Description(0);

// The driver's name for a description, the Rust's `FileHandle`: any 64-bit word of an entry.
#[repr(C)]
#[derive(Clone, Copy, Debug, PartialEq, Eq)]
pub struct Handle(pub u64);

// One over 63 is no handle.
pub const NO_HANDLE: Handle = Handle(64);

// The slot that a tag names. A tag over 63, at any width, names none and counts as vacant.
pub fn slot_of(tag: Tag) -> SlotNo
    ensures { result ≡ slot_of tag }
{
    let n = tag.0;
    if n < 64 {
        return SlotNo(n as u8);
    }
    SlotNo(64)
}

// The description that a word of the host names; one over 63 names none.
pub fn description_of(word: u64) -> Option<Description>
    ensures { result ≡ description_of word }
{
    if word < 64 {
        return Some(Description(word as u8));
    }
    None
}

// Sixteen descriptions, each a byte of two words, the lowest first.
pub fn descriptions_in(low: u64, high: u64) -> [Description; 16]
    ensures { result ≡ descriptions_in low high }
{
    let a = low.to_le_bytes();
    let b = high.to_le_bytes();
    [
        Description(a[0]),
        Description(a[1]),
        Description(a[2]),
        Description(a[3]),
        Description(a[4]),
        Description(a[5]),
        Description(a[6]),
        Description(a[7]),
        Description(b[0]),
        Description(b[1]),
        Description(b[2]),
        Description(b[3]),
        Description(b[4]),
        Description(b[5]),
        Description(b[6]),
        Description(b[7]),
    ]
}

// The handle that a word names, which may be any.
pub fn handle_of(word: u64) -> Handle
    ensures { result ≡ handle_of word }
{
    Handle(word)
}
