ghost use Rattle.std.specs.Prelude.{◌≡◌};
ghost use Rattle.in_syntax.specs.TextLimits.{max_agents, max_free, max_member_agents, max_rules, max_symbols, text_limit};

/// The most agents that a right member has by any limits.
pub const MOST_MEMBER_AGENTS: usize = 1_024;

/// The limits on a text and on what it declares. All are this project's own choice.
///
/// | | `Usual` | `Large` |
/// |---|---|---|
/// | bytes of the text | 1,048,576 | 67,108,864 |
/// | symbols | 512 | 4,096 |
/// | rules | 4,096 | 65,536 |
/// | free names | 256 | 4,096 |
/// | agents of the net | 4,000 | 1,048,576 |
/// | agents of a right member | 64 | 1,024 |
#[derive(Clone, Copy, Debug, Eq, PartialEq)]
pub enum TextLimits {
    Usual,
    Large,
}

impl TextLimits {
    /// The greatest number of bytes of a text.
    pub fn text_bytes(self) -> usize
        ensures { result ≡ text_limit self }
    {
        match self {
            TextLimits::Usual => 1_048_576,
            TextLimits::Large => 67_108_864,
        }
    }

    /// The greatest number of symbols.
    pub fn symbols(self) -> usize
        ensures { result ≡ max_symbols self }
    {
        match self {
            TextLimits::Usual => 512,
            TextLimits::Large => 4_096,
        }
    }

    /// The greatest number of rules.
    pub fn rules(self) -> usize
        ensures { result ≡ max_rules self }
    {
        match self {
            TextLimits::Usual => 4_096,
            TextLimits::Large => 65_536,
        }
    }

    /// The greatest number of free names.
    pub fn free_names(self) -> usize
        ensures { result ≡ max_free self }
    {
        match self {
            TextLimits::Usual => 256,
            TextLimits::Large => 4_096,
        }
    }

    /// The greatest number of agents of the net.
    pub fn agents(self) -> usize
        ensures { result ≡ max_agents self }
    {
        match self {
            TextLimits::Usual => 4_000,
            TextLimits::Large => 1_048_576,
        }
    }

    /// The greatest number of agents of a right member.
    pub fn member_agents(self) -> usize
        ensures { result ≡ max_member_agents self }
    {
        match self {
            TextLimits::Usual => 64,
            TextLimits::Large => MOST_MEMBER_AGENTS,
        }
    }
}
