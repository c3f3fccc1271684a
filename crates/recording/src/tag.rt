// Document 01's table of tags: which tag a byte is, and which lengths its value may have.
ghost use Rattle.std.specs.Prelude.{◌≡◌};
ghost use Rattle.recording.specs.Tag.{tag_of, length_fits};

// The tag of a field, in the order of the bytes 01 to 07.
#[derive(Clone, Copy)]
pub enum Tag {
    Setup,
    Word,
    Silence,
    ReadQueue,
    HostWrite,
    MoveTable,
    SetFlags,
}

// The byte of a word, by which a row of words is looked for.
pub(crate) const WORD_TAG: u8 = 2;

// The tag that a byte is, if it is one.
#[tactic(auto, unfolding(crate::specs::Tag::tag_of))]
pub(crate) fn tag_of(byte: u8) -> Option<Tag>
    ensures { result ≡ tag_of byte }
{
    match byte {
        1 => Some(Tag::Setup),
        WORD_TAG => Some(Tag::Word),
        3 => Some(Tag::Silence),
        4 => Some(Tag::ReadQueue),
        5 => Some(Tag::HostWrite),
        6 => Some(Tag::MoveTable),
        7 => Some(Tag::SetFlags),
        _ => None,
    }
}

impl Tag {
    // Whether a length is the tag's.
    #[tactic(auto, unfolding(crate::specs::Tag::length_fits))]
    pub(crate) fn length_fits(self, size: usize) -> bool
        ensures { result ≡ length_fits self size }
    {
        match self {
            Tag::Setup => size == 3,
            Tag::Word => size == 7,
            Tag::Silence => size == 5,
            Tag::ReadQueue => size == 0,
            Tag::HostWrite => (4..=130).contains(&size) && size % 2 == 0,
            Tag::MoveTable | Tag::SetFlags => size == 1,
        }
    }
}
