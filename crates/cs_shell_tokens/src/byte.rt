//! Bytes of a line.
ghost use Rattle.std.specs.Prelude.{◌≡◌, ◌≤◌, length, IsTrue};
ghost use Rattle.cs_shell_tokens.specs.Tokens.{is_blank as blank, is_digit as digit, is_word_byte as word_byte};
ghost use Rattle.cs_shell_tokens.specs.Words.{words_of, behind_word};
ghost use Rattle.cs_shell_tokens.specs.Reading.{behind, starts_word};

/// Returns whether a byte is a blank: a space, a tab or a carriage return.
pub(crate) fn is_blank(byte: u8) -> bool
    ensures { result ≡ blank byte }
{
    byte == b' ' || byte == b'\t' || byte == b'\r'
}

/// Returns whether a byte is a decimal digit.
pub(crate) fn is_digit(byte: u8) -> bool
    ensures { result ≡ digit byte }
{
    matches!(byte, b'0'..=b'9')
}

/// Returns whether a byte is an ASCII letter, a digit or `_`, as in words of statements and names of slots.
pub(crate) fn is_word_byte(byte: u8) -> bool
    ensures { result ≡ word_byte byte }
{
    matches!(byte, b'a'..=b'z' | b'A'..=b'Z' | b'0'..=b'9' | b'_')
}

/// Returns the line from its first byte that is not a blank.
pub(crate) fn skip_blanks(line: &[u8]) -> &[u8]
    ensures after { result.now ≡ behind blank line.now }
    ensures words { words_of result.now ≡ words_of line.now }
    ensures behind { behind_word result.now ≡ behind_word line.now }
    ensures start { IsTrue (starts_word result.now) }
    ensures shorter { length result.now ≤ length line.now }
{
    let mut rest = line;
    while let Some((byte, after)) = rest.split_first() {
        if !is_blank(*byte) {
            break;
        }
        rest = after;
    }
    rest
}
