// The tag of a create frame: UTF-8 by RFC 3629 before its NUL, and the display name.
#![tactic(auto)]

ghost use Rattle.std.specs.Prelude.{◌≡◌, ◌==◌, List, ◌∷◌, ℕ, position};
ghost use Rattle.tag.specs.Utf8.{class_of, utf8_after, utf8};
ghost use Rattle.tag.specs.Tag.{tag_length, display_name};
ghost use Rattle.tag.specs.Due.{goes_on};

// A create frame: its type, its length, and where its tag starts, which ends with the frame.
const CREATE: u32 = 0x0101;

const CREATE_LENGTH: usize = 88;

const TAG_OFFSET: usize = 24;

// DueTails that are due: how many, and the range of the next of them.
#[derive(Clone, Copy)]
struct DueTails {
    missing: u8,
    lo: u8,
    hi: u8,
}

// The class of each octet, sixteen to a line: the row of the RFC's grammar that it begins, 9 where it begins none.
// Kept as numbers: docs/PROMISES F-04 has one table of 256 classes, and 9 is no row's place.
const CLASSES: [u8; 256] = *b"\
    \x00\x00\x00\x00\x00\x00\x00\x00\x00\x00\x00\x00\x00\x00\x00\x00\
    \x00\x00\x00\x00\x00\x00\x00\x00\x00\x00\x00\x00\x00\x00\x00\x00\
    \x00\x00\x00\x00\x00\x00\x00\x00\x00\x00\x00\x00\x00\x00\x00\x00\
    \x00\x00\x00\x00\x00\x00\x00\x00\x00\x00\x00\x00\x00\x00\x00\x00\
    \x00\x00\x00\x00\x00\x00\x00\x00\x00\x00\x00\x00\x00\x00\x00\x00\
    \x00\x00\x00\x00\x00\x00\x00\x00\x00\x00\x00\x00\x00\x00\x00\x00\
    \x00\x00\x00\x00\x00\x00\x00\x00\x00\x00\x00\x00\x00\x00\x00\x00\
    \x00\x00\x00\x00\x00\x00\x00\x00\x00\x00\x00\x00\x00\x00\x00\x00\
    \x09\x09\x09\x09\x09\x09\x09\x09\x09\x09\x09\x09\x09\x09\x09\x09\
    \x09\x09\x09\x09\x09\x09\x09\x09\x09\x09\x09\x09\x09\x09\x09\x09\
    \x09\x09\x09\x09\x09\x09\x09\x09\x09\x09\x09\x09\x09\x09\x09\x09\
    \x09\x09\x09\x09\x09\x09\x09\x09\x09\x09\x09\x09\x09\x09\x09\x09\
    \x09\x09\x01\x01\x01\x01\x01\x01\x01\x01\x01\x01\x01\x01\x01\x01\
    \x01\x01\x01\x01\x01\x01\x01\x01\x01\x01\x01\x01\x01\x01\x01\x01\
    \x02\x03\x03\x03\x03\x03\x03\x03\x03\x03\x03\x03\x03\x04\x05\x05\
    \x06\x07\x07\x07\x08\x09\x09\x09\x09\x09\x09\x09\x09\x09\x09\x09";

// No tail that is due, and the range of every tail for which a row names no other.
const NO_TAILS: DueTails = DueTails {
    missing: 0,
    lo: 0x80,
    hi: 0xBF,
};

// The rows of the grammar, by the class of the first octet: the tails that are due behind it.
const ROWS: [DueTails; 9] = [
    NO_TAILS,
    DueTails {
        missing: 1,
        ..NO_TAILS
    },
    DueTails {
        missing: 2,
        lo: 0xA0,
        ..NO_TAILS
    },
    DueTails {
        missing: 2,
        ..NO_TAILS
    },
    DueTails {
        missing: 2,
        hi: 0x9F,
        ..NO_TAILS
    },
    DueTails {
        missing: 2,
        ..NO_TAILS
    },
    DueTails {
        missing: 3,
        lo: 0x90,
        ..NO_TAILS
    },
    DueTails {
        missing: 3,
        ..NO_TAILS
    },
    DueTails {
        missing: 3,
        hi: 0x8F,
        ..NO_TAILS
    },
];

// The tag before its NUL if the frame is a create frame with a good, non-empty tag, else the site's whole name.
#[tactic(auto, unfolding(crate::specs::Tag::display_name, crate::specs::Tag::carries_name, crate::specs::Tag::tag_length, crate::specs::Tag::good_tag))]
pub fn display_name<'a>(frame: &'a [u8], site: &'a [u8]) -> &'a [u8]
    ensures { result.now ≡ display_name frame.now site.now }
{
    if frame.len() != CREATE_LENGTH || field::read::<u32>(frame, 0) != CREATE {
        return site;
    }
    let tag = &frame[TAG_OFFSET..CREATE_LENGTH];
    match tag_of(tag) {
        Some(n) if n != 0 => &tag[..n],
        _ => site,
    }
}

// How many octets stand before the tag's NUL, if it has one and they are UTF-8.
pub fn tag_of(tag: &[u8]) -> Option<usize>
    ensures { result ≡ tag_length tag.now }
{
    let end = first_nul(tag)?;
    is_utf8(&tag[..end]).then_some(end)
}

// The place of the first NUL.
fn first_nul(octets: &[u8]) -> Option<usize>
    ensures { result ≡ position (λ b. b == 0) octets.now }
{
    octets.iter().position(|b| *b == 0)
}

// Whether the octets are whole characters of UTF-8.
// Kept: `str::from_utf8` promises std's own UTF-8, which would first have to be shown to be that of the RFC's rows.
#[tactic(auto, unfolding(crate::specs::Utf8::utf8, crate::specs::Utf8::utf8_after))]
fn is_utf8(octets: &[u8]) -> bool
    ensures { result ≡ utf8 octets.now }
{
    let mut due = NO_TAILS;
    for b in octets {
        let Some(next) = due.behind(*b) else {
            return false;
        };
        due = next;
    }
    due.missing == 0
}

impl DueTails {
    // What is due behind an octet, if that may stand here.
    #[tactic(auto, using(std::proofs::lemmas::Bool::Decides::nat_tests, crate::proofs::Laws::row_found, crate::proofs::Laws::tail_due, crate::proofs::Laws::no_tail_due), unfolding(laws::specs::Tests::within))]
    fn behind(self, b: u8) -> Option<DueTails>
        ensures { (s : List ℕ) → utf8_after self.missing self.lo self.hi (b ∷ s) ≡ goes_on result s }
    {
        if self.missing == 0 {
            return ROWS.get(usize::from(class_of(b))).copied();
        }
        if !(self.lo..=self.hi).contains(&b) {
            return None;
        }
        Some(DueTails {
            missing: self.missing - 1,
            ..NO_TAILS
        })
    }
}

// The class of an octet.
fn class_of(b: u8) -> u8
    ensures { result ≡ class_of b }
{
    CLASSES[usize::from(b)]
}
