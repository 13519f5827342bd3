ghost use Rattle.std.specs.Prelude.{◌≡◌, ℕ, Bool};
ghost use Rattle.dm_grammar.specs.Determinism.{is_nullable};
ghost use Rattle.dm_grammar.specs.Meaning.{meaning};

/// What a grammar sees of a token, the terminal symbol: a number below [`KIND_LIMIT`]. 1, 2 and 3 are a bracket that opens, one
/// that closes, and a comma.
pub type Kind = u8;
/// A set of kinds, by number. [`Classes`] says which kinds are in it.
pub type Class = u8;
/// Which word of the grammar took a token, by number.
pub type Role = u8;

/// Each kind is below it.
pub const KIND_LIMIT: Kind = 128;
/// The role of a word that the grammar knows and that is not supported: reading stops there.
pub const UNSUPPORTED: Role = 0;
/// The role of each token that [`Rule::Skip`] takes.
pub const SKIPPED: Role = 1;

/// A grammar over kinds of tokens.
#[derive(Drop)]
pub enum Rule<'a> {
    /// No token.
    Empty,
    /// One token of the class, which has the role.
    Word(Class, Role),
    /// Any tokens, with whole brackets among them, up to the comma or the closing bracket that ends them.
    Skip,
    /// The one, then the other.
    Seq(&'a Rule<'a>, &'a Rule<'a>),
    /// The one or the other.
    Or(&'a Rule<'a>, &'a Rule<'a>),
    /// Any number of times, also none.
    Many(&'a Rule<'a>),
    /// One item or more, with a token of the class, which has the role, between two of them.
    List(&'a Rule<'a>, Class, Role),
}

impl Rule<'_> {
    /// Whether it takes no token, among others.
    pub fn is_nullable(&self) -> bool
        ensures { result ≡ is_nullable (meaning self.now) }
    {
        match self {
            Rule::Empty | Rule::Skip | Rule::Many(_) => true,
            Rule::Word(..) => false,
            Rule::Seq(first, second) => first.is_nullable() && second.is_nullable(),
            Rule::Or(one, other) => one.is_nullable() || other.is_nullable(),
            Rule::List(item, ..) => item.is_nullable(),
        }
    }
}

/// The classes of a grammar.
pub trait Classes {
    /// Whether a class has a kind.
    ghost has: { ℕ → ℕ → Bool };

    fn contains(&self, class: Class, kind: Kind) -> bool
        ensures { result ≡ has class kind };
}
