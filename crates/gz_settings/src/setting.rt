//! The settings of a configuration, and their keys in a text.
ghost use Rattle.std.specs.Prelude.{◌≡◌};
ghost use Rattle.gz_settings.specs.Keys.{key_text, is_setting};

/// A setting of a configuration. Where several have values of another kind, the first one here is told.
#[derive(Clone, Copy, Debug, PartialEq, Eq)]
pub enum Setting {
    N,
    Qc,
    Qf,
    K,
    M,
    F,
    Tries,
    Order,
}

impl Setting {
    /// The setting's key in a text.
    pub fn key(self) -> &'static str
        ensures { result.now ≡ key_text self }
    {
        match self {
            Setting::N => "n",
            Setting::Qc => "qc",
            Setting::Qf => "qf",
            Setting::K => "k",
            Setting::M => "m",
            Setting::F => "f",
            Setting::Tries => "tries",
            Setting::Order => "order",
        }
    }
}

/// Whether the key is that of a setting.
pub(crate) fn is_known(key: &str) -> bool
    ensures { result ≡ is_setting key.now }
{
    key == "n"
        || key == "qc"
        || key == "qf"
        || key == "k"
        || key == "m"
        || key == "f"
        || key == "tries"
        || key == "order"
}
