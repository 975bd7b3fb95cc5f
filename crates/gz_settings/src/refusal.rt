//! Why a text gives no configuration.
use crate::setting::Setting;
use gz_core::{ConfigError, Word};
use std::fmt;

/// Why a text gives no configuration. Of several reasons the first one here is told.
#[derive(Debug, Drop)]
pub enum ConfigText {
    /// The text is no TOML.
    NotToml,
    /// A key is that of no setting: the first such key in the order of bytes.
    UnknownKey { name: Word },
    /// The value of a setting is of another kind: the first such setting.
    Kind { name: Setting },
    /// The configuration breaks a rule: the first such rule.
    Rule { why: ConfigError },
    NoMemory,
}

impl fmt::Display for ConfigText {
    fn fmt<W: fmt::Write>(&self, f: &mut fmt::Formatter<W>) -> fmt::Result {
        match self {
            ConfigText::NotToml => write!(f, "toml"),
            ConfigText::UnknownKey { name } => {
                let name = name.as_str();
                write!(f, "unknown {name}")
            }
            ConfigText::Kind { name } => {
                let key = name.key();
                write!(f, "kind {key}")
            }
            ConfigText::Rule { why } => {
                let rule = rule(*why);
                write!(f, "{rule}")
            }
            ConfigText::NoMemory => write!(f, "out of memory"),
        }
    }
}

/// The words of a rule.
fn rule(why: ConfigError) -> &'static str {
    match why {
        ConfigError::SiteCount => "sites",
        ConfigError::ClassicQuorum => "classic quorum",
        ConfigError::FastQuorum => "fast quorum",
        ConfigError::Pieces => "pieces",
        ConfigError::Spare => "spare",
        ConfigError::Tries => "tries",
    }
}
