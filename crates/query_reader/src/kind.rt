// The bytes that the grammar tells apart.

ghost use Rattle.std.specs.Prelude.{◌≡◌};
ghost use Rattle.query_reader.specs.Kinds.{kind_of, said, names_set};

/// What a byte is to the grammar.
#[derive(Clone, Copy)]
pub enum Kind {
    Blank,
    Quote,
    Open,
    Close,
    Star,
    Colon,
    Plus,
    Minus,
    Escape,
    Angle,
    SquareOpen,
    SquareClose,
    CurlyOpen,
    CurlyClose,
    Reserved,
    Plain,
}

#[tactic(auto, unfolding(crate::specs::Kinds::kind_of))]
pub fn byte_kind(byte: u8) -> Kind
    ensures { result ≡ kind_of byte }
{
    match byte {
        b' ' | b'\t' | b'\n' | b'\r' => Kind::Blank,
        b'"' => Kind::Quote,
        b'(' => Kind::Open,
        b')' => Kind::Close,
        b'*' => Kind::Star,
        b':' => Kind::Colon,
        b'+' => Kind::Plus,
        b'-' => Kind::Minus,
        b'\\' => Kind::Escape,
        b'<' | b'>' => Kind::Angle,
        b'[' => Kind::SquareOpen,
        b']' => Kind::SquareClose,
        b'{' => Kind::CurlyOpen,
        b'}' => Kind::CurlyClose,
        b'`' | b'^' | b'~' | b'!' => Kind::Reserved,
        _ => Kind::Plain,
    }
}

/// What a word says.
#[derive(Clone, Copy)]
pub enum Said {
    SaidWord,
    SaidAnd,
    SaidOr,
    SaidNot,
}

#[tactic(auto, unfolding(crate::specs::Kinds::said))]
pub fn what_is_said(plain: bool, bytes: &[u8]) -> Said
    ensures { result ≡ said plain bytes.now }
{
    if !plain {
        Said::SaidWord
    } else if bytes == b"AND".as_slice() {
        Said::SaidAnd
    } else if bytes == b"OR".as_slice() {
        Said::SaidOr
    } else if bytes == b"NOT".as_slice() {
        Said::SaidNot
    } else {
        Said::SaidWord
    }
}

/// Whether a word is an `IN`, written without a backslash.
#[tactic(auto, unfolding(crate::specs::Kinds::names_set))]
pub fn is_in(bytes: &[u8]) -> bool
    ensures { result ≡ names_set bytes.now }
{
    bytes == b"IN".as_slice()
}
