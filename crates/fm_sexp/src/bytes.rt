ghost use Rattle.std.specs.Prelude.{◌≡◌, ◌==◌, ◌||◌, codes};
ghost use Rattle.std.specs.List.{list_any};
ghost use Rattle.fm_sexp.specs.Pieces.{is_blank, is_within, is_digit, is_symbol_byte, is_hex_digit, is_binary_digit, is_comment_byte, is_quoted_byte};

// Whether a byte is a tab, a line feed, a carriage return or a space.
pub(crate) fn is_blank(byte: u8) -> bool
    ensures { result ≡ is_blank byte }
{
    byte == b'\t' || byte == b'\n' || byte == b'\r' || byte == b' '
}

pub(crate) fn is_digit(byte: u8) -> bool
    ensures { result ≡ is_digit byte }
{
    byte >= b'0' && byte <= b'9'
}

// Whether a byte is a letter or a digit.
fn is_alphanumeric(byte: u8) -> bool
    ensures { result ≡ (is_within 97 122 byte || is_within 65 90 byte || is_digit byte) }
{
    byte >= b'a' && byte <= b'z' || byte >= b'A' && byte <= b'Z' || byte >= b'0' && byte <= b'9'
}

// Whether a byte is one of the other characters of symbols.
fn is_mark(byte: u8) -> bool
    ensures { result ≡ list_any (λ c. c == byte) (codes "~!@$%^&*_-+=<>.?/") }
{
    b"~!@$%^&*_-+=<>.?/".iter().any(|mark| *mark == byte)
}

// Whether a byte may stand in a symbol.
#[tactic(auto, unfolding(crate::specs::Pieces::is_symbol_byte))]
pub(crate) fn is_symbol_byte(byte: u8) -> bool
    ensures { result ≡ is_symbol_byte byte }
{
    is_alphanumeric(byte) || is_mark(byte)
}

pub(crate) fn is_hex_digit(byte: u8) -> bool
    ensures { result ≡ is_hex_digit byte }
{
    is_digit(byte) || byte >= b'a' && byte <= b'f' || byte >= b'A' && byte <= b'F'
}

pub(crate) fn is_binary_digit(byte: u8) -> bool
    ensures { result ≡ is_binary_digit byte }
{
    byte == b'0' || byte == b'1'
}

// Whether a comment goes on at a byte.
pub(crate) fn is_comment_byte(byte: u8) -> bool
    ensures { result ≡ is_comment_byte byte }
{
    !(byte == b'\n' || byte == b'\r')
}

// Whether a quoted symbol goes on at a byte.
pub(crate) fn is_quoted_byte(byte: u8) -> bool
    ensures { result ≡ is_quoted_byte byte }
{
    !(byte == b'|' || byte == b'\\')
}
