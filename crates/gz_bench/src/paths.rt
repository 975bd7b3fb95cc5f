//! A put and a get of one object over sites in memory, and what neither can do without: the digests of the pieces, their
//! coding, and copies of what is kept twice.
ghost use Rattle.std.specs.Prelude.{◌≡◌, ◌≤◌, ◌+◌, IfOk, All, length};
ghost use Rattle.gz_core.specs.Configurations.{IsConfig};
ghost use Rattle.gz_lines.specs.Schedule.{IsBoundedCall};

use crate::growth::{begin, open_with, settle, time_of_play};
use crate::work::Piece;
use anyhow::{Result, bail, ensure};
use gz_code::{join, split};
use gz_core::{Call, Config, Items, Key};
use gz_fragfmt::digest;
use gz_script::Line;
use std::alloc::{AllocError, Global};
use std::time::Instant;

/// What was timed, in nanoseconds: a call from its beginning to its answer, and the parts that it can't do without.
#[derive(Clone, Copy)]
pub struct Timed {
    pub call: u128,
    pub digests: u128,
    pub coding: u128,
    pub copies: u128,
}

impl Timed {
    const WORST: Timed = Timed {
        call: u128::MAX,
        digests: u128::MAX,
        coding: u128::MAX,
        copies: u128::MAX,
    };

    /// The lower one of each part's two times.
    fn best_of(self, other: Timed) -> Timed {
        Timed {
            call: self.call.min(other.call),
            digests: self.digests.min(other.digests),
            coding: self.coding.min(other.coding),
            copies: self.copies.min(other.copies),
        }
    }
}

/// A store of k + m sites, one for each fragment.
pub fn config_of(k: u16, m: u16) -> Result<Config>
    ensures { IfOk result (λ config. IsConfig config) }
{
    ensure!(k <= 16 && m <= 16, "too many fragments");
    let n = k + m;
    let qc = n / 2 + 1;
    let config = Config {
        n,
        qc,
        qf: (2 * n - qc.min(n)) / 2 + 1,
        k,
        m,
        ..Config::DEFAULT
    };
    ensure!(config.check().is_ok(), "no store of {k} + {m} sites");
    Ok(config)
}

/// The best times of a put of an object, and of a get of it, of so many rounds.
pub fn time_paths(
    rt: &HostRuntime,
    config: Config,
    object: &[u8],
    rounds: u32,
) -> Result<(Timed, Timed)> {
    let (mut put, mut get) = (Timed::WORST, Timed::WORST);
    for _ in 0..rounds {
        let (put_again, get_again) = time_once(rt, config, object)?;
        put = put.best_of(put_again);
        get = get.best_of(get_again);
    }
    Ok((put, get))
}

/// The times of one put of an object, and of one get of it.
fn time_once(rt: &HostRuntime, config: Config, object: &[u8]) -> Result<(Timed, Timed)> {
    let (put, get) = time_calls(rt, config, object)?;
    let (k, m) = (config.k as usize, config.m as usize);
    let (put, pieces) = with_put_parts(rt, put, k, m, object)?;
    let get = with_get_parts(rt, get, k, m, object.len(), pieces)?;
    Ok((put, get))
}

/// The times of the calls themselves, each from its beginning to its answer.
fn time_calls(rt: &HostRuntime, config: Config, object: &[u8]) -> Result<(u128, u128)> {
    let alloc = rt.alloc();
    let mut world = open_with(alloc, config)?;
    time_of_play(rt, &[Line::OpenSession], &mut world)?;
    let put = put_of(alloc, object)?;
    let put = time_of_play(rt, &[begin(put), settle(alloc)], &mut world)?;
    let get = Call::Get { key: key(alloc)? };
    let get = time_of_play(rt, &[begin(get), settle(alloc)], &mut world)?;
    Ok((put, get))
}

/// The put of the object.
fn put_of(alloc: Global, object: &[u8]) -> Result<Call>
    ensures { IfOk result (λ call. IsBoundedCall call) }
{
    ensure!(
        object.len() <= 1_048_576,
        "an object has at most 1,048,576 bytes"
    );
    let key = key(alloc)?;
    let bytes = Items::from_slice(alloc, object)?;
    Ok(Call::Put { key, bytes })
}

/// The key of the object.
fn key(alloc: Global) -> Result<Key> {
    match Key::new(Vec::from_slice(alloc, b"object")?) {
        Some(key) => Ok(key),
        None => bail!("no key"),
    }
}

/// The parts of a put: its object is split, each piece is copied into its record and digested there, each record is copied to its site,
/// and the object is kept with its event and with its call.
fn with_put_parts(
    rt: &HostRuntime,
    call: u128,
    k: usize,
    m: usize,
    object: &[u8],
) -> Result<(Timed, Vec<Vec<u8>>)> {
    ensure!(k >= 1 && k <= 256 && m <= 256 - k, "no code");
    let start = Instant::now(rt)?;
    let pieces = split(rt.alloc(), k, m, object)?;
    let coding = start.elapsed(rt)?.as_nanos();
    let digests = time_of_digests(rt, &pieces)?;
    let start = Instant::now(rt)?;
    let _records = copies_of(rt.alloc(), &pieces)?;
    let _stored = copies_of(rt.alloc(), &pieces)?;
    let _event = Vec::from_slice(rt.alloc(), object)?;
    let _call = Vec::from_slice(rt.alloc(), object)?;
    let copies = start.elapsed(rt)?.as_nanos();
    Ok((
        Timed {
            call,
            digests,
            coding,
            copies,
        },
        pieces,
    ))
}

/// The parts of a get that has the first k pieces: each record is copied into its reply, digested, and its piece copied out of it; the
/// pieces are joined, and the object is kept with its call and given as the answer.
fn with_get_parts(
    rt: &HostRuntime,
    call: u128,
    k: usize,
    m: usize,
    len: usize,
    pieces: Vec<Vec<u8>>,
) -> Result<Timed> {
    ensure!(k >= 1 && k <= 256 && m <= 256 - k, "no code");
    let pieces = first_pieces(rt.alloc(), pieces, k)?;
    let digests = time_of_digests(rt, &bytes_of(rt.alloc(), &pieces)?)?;
    let start = Instant::now(rt)?;
    let joined = join(rt.alloc(), k, m, len, &pieces)?;
    let coding = start.elapsed(rt)?.as_nanos();
    let start = Instant::now(rt)?;
    let _replies = bytes_of(rt.alloc(), &pieces)?;
    let _pieces = bytes_of(rt.alloc(), &pieces)?;
    let _call = joined.clone()?;
    let copies = start.elapsed(rt)?.as_nanos();
    Ok(Timed {
        call,
        digests,
        coding,
        copies,
    })
}

/// The time in nanoseconds of the digests of all pieces.
fn time_of_digests(rt: &HostRuntime, pieces: &[Vec<u8>]) -> Result<u128> {
    let start = Instant::now(rt)?;
    let mut sum = 0u8;
    for piece in pieces {
        sum ^= digest(piece)[0];
    }
    let took = start.elapsed(rt)?.as_nanos();
    ensure!(took > 0 || sum == 0, "no time");
    Ok(took)
}

fn copies_of(alloc: Global, pieces: &[Vec<u8>]) -> Result<Vec<Vec<u8>>, AllocError> {
    let mut copies = Vec::new(alloc);
    for piece in pieces {
        copies.push(Vec::from_slice(alloc, piece)?)?;
    }
    Ok(copies)
}

/// Copies of the bytes of pieces.
fn bytes_of(alloc: Global, pieces: &[Piece]) -> Result<Vec<Vec<u8>>, AllocError> {
    let mut copies = Vec::new(alloc);
    for piece in pieces {
        copies.push(Vec::from_slice(alloc, &piece.1)?)?;
    }
    Ok(copies)
}

/// The first `count` of the pieces, with their indices.
fn first_pieces(
    alloc: Global,
    pieces: Vec<Vec<u8>>,
    count: usize,
) -> Result<Vec<Piece>, AllocError> {
    let mut first = Vec::new(alloc);
    let mut index = 0usize;
    for piece in pieces {
        if index < count {
            first.push((index, piece))?;
        }
        index = index.saturating_add(1);
    }
    Ok(first)
}
