//! Keywords and signs.
ghost use Rattle.std.specs.Prelude.{◌≡◌};
ghost use Rattle.cs_shell_tokens.specs.Tokens.{symbol_text};
ghost use Rattle.cs_shell_tokens.specs.Reading.{same_symbol};

/// A token with one meaning: a keyword, in upper or lower case, or a sign.
#[derive(Clone, Copy, Debug, PartialEq, Eq)]
pub enum Symbol {
    Create,
    Table,
    Primary,
    Key,
    Insert,
    Into,
    Values,
    Update,
    Set,
    Where,
    And,
    Delete,
    From,
    Select,
    Not,
    Open,
    Close,
    Comma,
    Semicolon,
    Equals,
    Star,
}

/// The keywords.
pub(crate) const KEYWORDS: [Symbol; 15] = [
    Symbol::Create,
    Symbol::Table,
    Symbol::Primary,
    Symbol::Key,
    Symbol::Insert,
    Symbol::Into,
    Symbol::Values,
    Symbol::Update,
    Symbol::Set,
    Symbol::Where,
    Symbol::And,
    Symbol::Delete,
    Symbol::From,
    Symbol::Select,
    Symbol::Not,
];

impl Symbol {
    /// Returns the spelling of a sign, or of a keyword in upper case.
    pub fn text(self) -> &'static str
        ensures { result.now ≡ symbol_text self }
    {
        match self {
            Symbol::Create => "CREATE",
            Symbol::Table => "TABLE",
            Symbol::Primary => "PRIMARY",
            Symbol::Key => "KEY",
            Symbol::Insert => "INSERT",
            Symbol::Into => "INTO",
            Symbol::Values => "VALUES",
            Symbol::Update => "UPDATE",
            Symbol::Set => "SET",
            Symbol::Where => "WHERE",
            Symbol::And => "AND",
            Symbol::Delete => "DELETE",
            Symbol::From => "FROM",
            Symbol::Select => "SELECT",
            Symbol::Not => "NOT",
            Symbol::Open => "(",
            Symbol::Close => ")",
            Symbol::Comma => ",",
            Symbol::Semicolon => ";",
            Symbol::Equals => "=",
            Symbol::Star => "*",
        }
    }

    /// Returns whether this is that symbol.
    pub fn is(self, other: Symbol) -> bool
        ensures { result ≡ same_symbol self other }
    {
        self == other
    }
}
