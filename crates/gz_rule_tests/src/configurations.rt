//! The rules of a configuration.
use gz_core::{Config, ConfigError, Order};

const LARGEST: Config = Config {
    n: 16,
    qc: 16,
    qf: 16,
    k: 12,
    m: 4,
    f: 4,
    tries: 1000,
    order: Order::Parallel,
};

const SMALLEST: Config = Config {
    n: 1,
    qc: 1,
    qf: 1,
    k: 1,
    m: 0,
    f: 0,
    tries: 1,
    order: Order::BlobsFirst,
};

const OTHER: Config = Config::DEFAULT;

/// Seven sites, of which a classic quorum and two fast ones may have none in common.
const APART: Config = Config {
    n: 7,
    qc: 4,
    qf: 5,
    ..OTHER
};

/// Configurations, each with the first rule that it breaks.
const CONFIGS: [(Config, Result<(), ConfigError>); 9] = [
    (OTHER, Ok(())),
    (SMALLEST, Ok(())),
    (LARGEST, Ok(())),
    (Config { n: 17, ..OTHER }, Err(ConfigError::SiteCount)),
    (Config { qc: 1, ..OTHER }, Err(ConfigError::ClassicQuorum)),
    (APART, Err(ConfigError::FastQuorum)),
    (Config { m: 2, ..OTHER }, Err(ConfigError::Pieces)),
    (Config { f: 2, ..OTHER }, Err(ConfigError::Spare)),
    (Config { tries: 0, ..OTHER }, Err(ConfigError::Tries)),
];

#[test]
fn tells_the_first_broken_rule(rt: HostRuntime) {
    for (config, told) in CONFIGS {
        assert!(rt; config.check() == told);
    }
}
