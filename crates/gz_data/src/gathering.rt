//! The fragments of a value as they come, and the answer that they make.
ghost use Rattle.std.specs.Prelude.{vec_len, vec_capacity, ◌≡◌, ℕ, ◌+◌, ◌<◌, ◌≤◌, ◌↔◌, true, [], ◌∷◌, ◌++◌, List, Option, Some, None, is_some, IsSome, slice_get, slice_set, length, map, All, IsTrue, IfOk, OnOk, OnErr};
ghost use Rattle.gz_core.specs.History.{Asked, Action, Handed, GaveUp};
ghost use Rattle.gz_core.specs.declared.fates.Fate.{Fate};
ghost use Rattle.gz_core.specs.declared.requests.Op.TheVariants.{GetBlob};
ghost use Rattle.gz_data.specs.Records.{whole_piece};
ghost use Rattle.gz_core.specs.declared.fates.Fate.TheVariants.{Whole};
ghost use Rattle.gz_data.specs.Whole.{pieces_of, pieces_if_some};
ghost use Rattle.gz_data.specs.Blobs.{fate_of_piece, fate_in, piece_in, blob_at, pieces_by};

use crate::pieces::{piece_of, rebuild};
use gz_core::{Answer, Fate, Fates, Items, Key, PutValue, Reply, Version};
use std::alloc::{AllocError, Global};
use std::marker::Model;

/// What came of a fragment: its fate, and its piece where it is whole, of a gathering that keeps it later.
#[derive(Drop)]
pub struct Came {
    index: u8,
    fate: Fate,
    piece: Option<(usize, Vec<u8>)>,
}

impl Model for Came {
    ghost use Rattle.gz_data.specs.Whole.{pieces_if_some};
    ghost use Rattle.gz_data.specs.Gathered.{CameAt};

    ghost Value = { CameAt };

    ghost view = { λ came. record { index = came.index; fate = came.fate; pieces = pieces_if_some came.piece } };
}

/// What a gathering makes of what came of a fragment: it goes on and keeps it, or the call ends.
#[derive(Drop)]
pub enum Heard {
    Goes { came: Came },
    Ends { answer: Answer },
}

/// The fragments of a value that a call gathers: what came of each, and the pieces of those that are whole, at most so many
/// as make the object.
#[derive(Drop)]
pub struct Gathering {
    version: Version,
    value: PutValue,
    fates: Items<Option<Fate>>,
    pieces: Vec<(usize, Vec<u8>)>,
}

impl Model for Gathering {
    ghost use Rattle.std.specs.Prelude.{◌≤◌, vec_capacity};
    ghost use Rattle.gz_data.specs.Whole.{pieces_of};
    ghost use Rattle.gz_data.specs.Gathered.{GatheredAt, IsGathered};

    ghost Value = { GatheredAt };

    ghost view = { λ g. record { version = g.version; value = g.value; fates = g.fates; pieces = pieces_of g.pieces.items } };

    ghost invariant = { λ g. IsGathered (record { version = g.version; value = g.value; fates = g.fates; pieces = pieces_of g.pieces.items }) × (g.value.k ≤ vec_capacity g.pieces) };
}

/// Keeps the piece of the bytes that came for a fragment, if they are whole, and says what came of it.
fn keep_piece(
    alloc: Global,
    pieces: &mut Vec<(usize, Vec<u8>)>,
    key: &Key,
    value: &PutValue,
    index: u8,
    bytes: &[u8],
) -> Result<Fate, AllocError>
    requires within { index < value.now.k + value.now.m }
    requires room { vec_len pieces.old < vec_capacity pieces.old }
    ensures kept { OnOk result (pieces_of pieces.new.items ≡ pieces_of pieces.old.items ++ pieces_by index (whole_piece key.now value.now index bytes.now)) }
    ensures fate { IfOk result (λ fate. fate ≡ fate_of_piece (whole_piece key.now value.now index bytes.now)) }
    ensures err { OnErr result (pieces_of pieces.new.items ≡ pieces_of pieces.old.items) }
    ensures capacity { vec_capacity pieces.new ≡ vec_capacity pieces.old }
{
    let Some(piece) = piece_of(key, value, index, bytes) else {
        return Ok(Fate::Damaged);
    };
    let piece = Vec::from_slice(alloc, piece)?;
    pieces.push_reserved((index as usize, piece));
    Ok(Fate::Whole)
}

/// Keeps the piece that a reply brings of a fragment, if it is whole, and says what came of the fragment.
fn take_reply(
    alloc: Global,
    pieces: &mut Vec<(usize, Vec<u8>)>,
    key: &Key,
    value: &PutValue,
    index: u8,
    reply: &Reply,
) -> Result<Fate, AllocError>
    requires within { index < value.now.k + value.now.m }
    requires room { vec_len pieces.old < vec_capacity pieces.old }
    ensures kept { OnOk result (pieces_of pieces.new.items ≡ pieces_of pieces.old.items ++ pieces_by index (piece_in key.now value.now index reply.now)) }
    ensures fate { IfOk result (λ fate. fate ≡ fate_in key.now value.now index reply.now) }
    ensures err { OnErr result (pieces_of pieces.new.items ≡ pieces_of pieces.old.items) }
    ensures capacity { vec_capacity pieces.new ≡ vec_capacity pieces.old }
{
    match reply {
        Reply::Blob { bytes } => keep_piece(alloc, pieces, key, value, index, bytes.as_slice()),
        Reply::NoBlob => Ok(Fate::Missing),
        _ => Ok(Fate::Failed),
    }
}

/// Takes back the fate of a fragment of which something came.
fn take_fate(fates: &mut Items<Option<Fate>>, at: usize) -> Fate
    requires { (fate : Fate) × (slice_get fates.old at ≡ Some (Some fate)) }
    ensures was { slice_get fates.old at ≡ Some (Some result) }
    ensures set { fates.new ≡ slice_set fates.old at None }
{
    match fates.replace(at, None) {
        Some(fate) => fate,
        None => unreachable!(),
    }
}

/// Takes back the last piece, if it is that of a fragment that came whole.
fn take_piece(pieces: &mut Vec<(usize, Vec<u8>)>, fate: Fate) -> Option<(usize, Vec<u8>)>
    ensures pieces { pieces_of pieces.old.items ≡ pieces_of pieces.new.items ++ pieces_if_some result }
    ensures whole { fate ≡ Whole → 0 < length pieces.old.items → IsSome result }
    ensures other { (fate ≡ Whole → ⊥) → result ≡ None }
    ensures capacity { vec_capacity pieces.new ≡ vec_capacity pieces.old }
{
    match fate {
        Fate::Whole => pieces.pop(),
        _ => None,
    }
}

/// The fates of fragments of each of which something came.
fn fates_of(alloc: Global, came: &[Option<Fate>]) -> Result<Fates, AllocError>
    requires some { 1 ≤ length came.now }
    requires few { length came.now ≤ 16 }
    requires all { All (λ (fate : Option Fate). is_some fate ≡ true) came.now }
    ensures { IfOk result (λ fates. map (λ fate. Some fate) fates ≡ came.now) }
{
    let mut fates = Vec::with_capacity(alloc, came.len())?;
    for fate in came {
        let Some(fate) = fate else {
            unreachable!();
        };
        fates.push(*fate)?;
    }
    let Some(fates) = Fates::new(fates) else {
        unreachable!();
    };
    Ok(fates)
}

impl Gathering {
    ghost use Rattle.gz_data.specs.Blobs.{Outcome, Answered, Abandoned};
    ghost use Rattle.gz_data.specs.Hearing.{HearsOf};
    ghost use Rattle.gz_data.specs.Gathered.{GatheredAt, CameAt, IsGathered, IsWaitedFor, noted, with_given_up, gathered_after, with_came, CanKeep, IsTaken, AreAsked, Gathers, IsOver, IsAnswerOf};

    /// Nothing came of the value's fragments yet. There is room for as many pieces as make the object.
    pub fn new(alloc: Global, version: Version, value: PutValue) -> Result<Gathering, AllocError>
        ensures version { IfOk result (λ g. g.version ≡ version) }
        ensures value { IfOk result (λ g. g.value ≡ value) }
        ensures rules { IfOk result IsGathered }
        ensures begins { IfOk result (λ g. (key : List ℕ) (ms : List Action) → AreAsked key value ms → Gathers key ms g) }
    {
        let fates = vec![in alloc; None; usize::from(value.k) + usize::from(value.m)]?;
        let pieces = Vec::with_capacity(alloc, usize::from(value.k))?;
        Ok(Gathering {
            version,
            value,
            fates: Items::from_vec(fates),
            pieces,
        })
    }

    /// The value that is gathered.
    pub fn value(&self) -> &PutValue
        ensures { result.now ≡ self.now.value }
    {
        &self.value
    }

    /// Whether the value has a fragment of this index of which nothing came yet.
    pub fn is_waited_for(&self, index: u8) -> bool
        ensures { IsTrue result ↔ IsWaitedFor self.now index }
    {
        matches!(self.fates.get(usize::from(index)), Some(None))
    }

    /// Takes what a site answered to the request for a fragment.
    pub fn note(
        &mut self,
        alloc: Global,
        key: &Key,
        index: u8,
        reply: &Reply,
    ) -> Result<(), AllocError>
        requires waited { IsWaitedFor self.old index }
        requires few { length self.old.pieces < self.old.value.k }
        ensures noted { OnOk result (self.new ≡ noted self.old key.now index reply.now) }
        ensures gathers { OnOk result ((ms : List Action) (a : Asked) → a.op ≡ GetBlob (blob_at key.now self.old.value index) → Gathers key.now ms self.old → Gathers key.now (Handed a reply.now ∷ ms) self.new) }
        ensures err { OnErr result (self.new ≡ self.old) }
    {
        let fate = take_reply(alloc, &mut self.pieces, key, &self.value, index, reply)?;
        self.fates.set(index as usize, Some(fate));
        Ok(())
    }

    /// Takes that the request for a fragment was given up.
    pub fn give_up(&mut self, index: u8)
        requires { IsWaitedFor self.old index }
        ensures given_up { self.new ≡ with_given_up self.old index }
        ensures gathers { (key : List ℕ) (ms : List Action) (a : Asked) → a.op ≡ GetBlob (blob_at key self.old.value index) → Gathers key ms self.old → Gathers key (GaveUp a ∷ ms) self.new }
    {
        self.fates.set(index as usize, Some(Fate::GivenUp));
    }

    /// What a site's answer to the request for a fragment makes of the gathering. Till it is kept, the gathering is the same.
    pub fn hear(
        &mut self,
        alloc: Global,
        key: &Key,
        index: u8,
        reply: &Reply,
    ) -> Result<Heard, AllocError>
        requires waited { IsWaitedFor self.old index }
        requires few { length self.old.pieces < self.old.value.k }
        ensures heard { IfOk result (λ heard. HearsOf self.old key.now index (Answered reply.now) heard) }
        ensures same { self.new ≡ self.old }
    {
        let _ = &self.version;
        self.note(alloc, key, index, reply)?;
        self.come_to(alloc, index)
    }

    /// What it makes of the gathering that the request for a fragment is given up. Till it is kept, the gathering is the same.
    /// Takes no memory where the gathering goes on.
    pub fn lose(&mut self, alloc: Global, index: u8) -> Result<Heard, AllocError>
        requires waited { IsWaitedFor self.old index }
        requires few { length self.old.pieces < self.old.value.k }
        ensures heard { IfOk result (λ heard. (key : List ℕ) → HearsOf self.old key index Abandoned heard) }
        ensures same { self.new ≡ self.old }
    {
        let _ = &self.version;
        self.give_up(index);
        self.come_to(alloc, index)
    }

    /// What a gathering comes to that took what came of a fragment last, which it takes back.
    fn come_to(&mut self, alloc: Global, index: u8) -> Result<Heard, AllocError>
        requires { (g : GatheredAt) × (key : List ℕ) × (outcome : Outcome) × IsTaken g key index outcome self.old }
        ensures heard { IfOk result (λ heard. (g : GatheredAt) (key : List ℕ) (outcome : Outcome) → IsTaken g key index outcome self.old → HearsOf g key index outcome heard) }
        ensures back { (g : GatheredAt) (key : List ℕ) (outcome : Outcome) → IsTaken g key index outcome self.old → self.new ≡ g }
    {
        let _ = &self.version;
        if self.is_over() {
            let answer = self.answer(alloc);
            let _came = self.take_back(index);
            return Ok(Heard::Ends { answer: answer? });
        }
        let came = self.take_back(index);
        Ok(Heard::Goes { came })
    }

    /// Takes back what came of a fragment last.
    fn take_back(&mut self, index: u8) -> Came
        requires { (g : GatheredAt) × (key : List ℕ) × (outcome : Outcome) × IsTaken g key index outcome self.old }
        ensures back { (g : GatheredAt) (key : List ℕ) (outcome : Outcome) → IsTaken g key index outcome self.old → self.new ≡ g }
        ensures came { (g : GatheredAt) (key : List ℕ) (outcome : Outcome) → IsTaken g key index outcome self.old → (result.index ≡ index) × (with_came g result ≡ self.old) }
    {
        let fate = take_fate(&mut self.fates, index as usize);
        let piece = take_piece(&mut self.pieces, fate);
        Came { index, fate, piece }
    }

    /// Keeps what came of a fragment. Takes no memory.
    pub fn keep(&mut self, came: Came)
        requires { CanKeep self.old came }
        ensures { self.new ≡ with_came self.old came }
    {
        let Came { index, fate, piece } = came;
        self.fates.set(usize::from(index), Some(fate));
        if let Some(piece) = piece {
            self.pieces.push_reserved(piece);
        }
    }

    /// Whether the answer is known: so many pieces came whole as make the object, or something came of each fragment.
    pub fn is_over(&self) -> bool
        ensures { IsTrue result ↔ IsOver self.now }
    {
        self.pieces.len() == usize::from(self.value.k)
            || self.fates.as_slice().iter().all(|fate| fate.is_some())
    }

    /// The object, where so many pieces came whole as make it, or else what came of each fragment.
    pub fn answer(&self, alloc: Global) -> Result<Answer, AllocError>
        requires { IsOver self.now }
        ensures { IfOk result (λ answer. (key : List ℕ) (ms : List Action) → Gathers key ms self.now → IsAnswerOf key ms self.now answer) }
    {
        let (version, name) = (self.version, self.value.name);
        if self.pieces.len() == usize::from(self.value.k) {
            let bytes = Items::from_vec(rebuild(alloc, &self.value, &self.pieces)?);
            return Ok(Answer::Bytes {
                version,
                name,
                bytes,
            });
        }
        let fates = fates_of(alloc, self.fates.as_slice())?;
        Ok(Answer::Incomplete {
            version,
            name,
            fates,
        })
    }
}
