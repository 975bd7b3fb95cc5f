//! The sizes of a store: sites, quorums, fragments, and how often a call tries again.
#![tactic(auto)]

ghost use Rattle.std.specs.Prelude.{◌≡◌, IfOk};
ghost use Rattle.gz_config.specs.Configurations.{check_of, IsConfig};

/// Whether the fragments of a put are sent beside its first reads, or before them.
#[derive(Clone, Copy, Debug)]
pub enum Order {
    Parallel,
    BlobsFirst,
}

/// The configuration of a store: `n` sites, classic quorums of `qc` sites and fast quorums of `qf`, `k` data
/// fragments and `m` parity fragments of an object, `f` fragments beyond `k` that must be stored before a put
/// answers Ok, and the number `tries` of lost races at which a call gives up.
#[derive(Clone, Copy, Debug)]
pub struct Config {
    pub n: u16,
    pub qc: u16,
    pub qf: u16,
    pub k: u16,
    pub m: u16,
    pub f: u16,
    pub tries: u32,
    pub order: Order,
}

/// The first rule that a configuration breaks.
#[derive(Clone, Copy, Debug, PartialEq, Eq)]
pub enum ConfigError {
    /// There are 1 to 16 sites.
    SiteCount,
    /// A classic quorum is more than half of the sites, and at most all.
    ClassicQuorum,
    /// A fast quorum is at least a classic one and at most all sites, and a classic quorum and two fast ones
    /// have a common site: 2qf + qc > 2n. (Lamport 2006, "Fast Paxos".)
    FastQuorum,
    /// There is at least one data fragment, and at most one fragment for each site.
    Pieces,
    /// No more spare fragments are asked for than there are parity fragments.
    Spare,
    /// A call gives up after 1 to 1000 lost races.
    Tries,
}

impl Config {
    /// Three sites, of which one may be lost.
    pub const DEFAULT: Config = Config {
        n: 3,
        qc: 2,
        qf: 3,
        k: 2,
        m: 1,
        f: 0,
        tries: 8,
        order: Order::Parallel,
    };

    /// Returns the first rule that the configuration breaks. Takes no memory.
    pub fn check(&self) -> Result<(), ConfigError>
        ensures exact { result ≡ check_of self.now }
        ensures config { IfOk result (λ _. IsConfig self.now) }
    {
        let (n, qc, qf) = (self.n as u32, self.qc as u32, self.qf as u32);
        if n == 0 || n > 16 {
            Err(ConfigError::SiteCount)
        } else if 2 * qc <= n || qc > n {
            Err(ConfigError::ClassicQuorum)
        } else if qf < qc || qf > n || 2 * qf + qc <= 2 * n {
            Err(ConfigError::FastQuorum)
        } else if self.k == 0 || self.k as u32 + self.m as u32 > n {
            Err(ConfigError::Pieces)
        } else if self.f > self.m {
            Err(ConfigError::Spare)
        } else if self.tries == 0 || self.tries > 1000 {
            Err(ConfigError::Tries)
        } else {
            Ok(())
        }
    }
}
