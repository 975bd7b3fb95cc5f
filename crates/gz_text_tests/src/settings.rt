//! Configurations, read and refused.
use gz_core::{Config, Order};
use gz_settings::read_config;
use std::alloc::{AllocError, Global};

/// A configuration in brief: its sites, quorums, fragments, spare fragments and tries, and its order.
type Brief = (u16, u16, u16, u16, u16, u16, u32, &'static str);

fn brief_of(config: &Config) -> Brief {
    let order = match config.order {
        Order::Parallel => "parallel",
        Order::BlobsFirst => "blobs-first",
    };
    (
        config.n,
        config.qc,
        config.qf,
        config.k,
        config.m,
        config.f,
        config.tries,
        order,
    )
}

/// Texts with the configurations that they give.
const READ: &[(&str, Brief)] = &[
    ("", (3, 2, 3, 2, 1, 0, 8, "parallel")),
    ("# none\n\n", (3, 2, 3, 2, 1, 0, 8, "parallel")),
    (
        "n = 5\nqc = 3\nqf = 4\nk = 3\nm = 2\nf = 1\norder = \"parallel\"\n",
        (5, 3, 4, 3, 2, 1, 8, "parallel"),
    ),
    (
        "order = 'blobs-first'\r\ntries = 1000\r\n",
        (3, 2, 3, 2, 1, 0, 1000, "blobs-first"),
    ),
    (
        "n=0x3\nqc=0b10\nqf=+3\nm=0o1\nf=-0\ntries=1_0",
        (3, 2, 3, 2, 1, 0, 10, "parallel"),
    ),
    ("\"n\" = 3\n'tries' = 9", (3, 2, 3, 2, 1, 0, 9, "parallel")),
];

/// Whether a text gives this configuration.
fn is_read(alloc: Global, text: &str, brief: Brief) -> bool {
    match read_config(alloc, text.as_bytes()) {
        Ok(config) => brief_of(&config) == brief,
        Err(_) => false,
    }
}

#[test]
fn configurations_are_read(rt: HostRuntime) {
    for (text, brief) in READ {
        assert!(rt; is_read(rt.alloc(), text, *brief));
    }
}

/// Texts with the words of their refusals, in the order in which refusals come.
const REFUSED: &[(&str, &str)] = &[
    ("n", "toml"),
    ("n = 03\n", "toml"),
    ("n = 3\nn = 3\n", "toml"),
    ("n = 3\rk = 2\n", "toml"),
    ("sites = 3\n", "unknown sites"),
    ("n = 'three'\nzeta = 1\nN = 3\nalpha = 2\n", "unknown N"),
    ("[n2]\nn = 3\n", "unknown n2"),
    ("\"\" = 1\n", "unknown "),
    ("n = \"3\"\n", "kind n"),
    ("n.a = 3\n", "kind n"),
    ("[qc]\n", "kind qc"),
    ("tries = 0\nm = -1\nk = 65536\n", "kind k"),
    ("order = 1\nf = 1.0\n", "kind f"),
    ("order = 'blobs'\n", "kind order"),
    ("order = ['parallel']\n", "kind order"),
    ("tries = 2020-01-01\n", "kind tries"),
    ("n = 17\nqc = 0\n", "sites"),
    ("qc = 1\nqf = 9\n", "classic quorum"),
    ("qf = 1\nk = 0\n", "fast quorum"),
    ("m = 2\nf = 9\n", "pieces"),
    ("f = 2\ntries = 0\n", "spare"),
    ("tries = 1001\n", "tries"),
];

/// Whether a text is refused with these words.
fn is_refused(alloc: Global, text: &[u8], words: &str) -> Result<bool, AllocError> {
    match read_config(alloc, text) {
        Ok(_) => Ok(false),
        Err(why) => {
            let told = why.to_string(alloc)?;
            Ok(told.as_str() == words)
        }
    }
}

#[test]
fn other_texts_are_refused(rt: HostRuntime) -> Result<(), AllocError> {
    for (text, words) in REFUSED {
        assert!(rt; is_refused(rt.alloc(), text.as_bytes(), words)?);
    }
    assert!(rt; is_refused(rt.alloc(), b"n = 3 # \xff\n".as_slice(), "toml")?);
    Ok(())
}
