// Write lists: their records, and putting one on a block.
ghost use Rattle.std.specs.Prelude.{◌≡◌, ◌↔◌, IsTrue, IsSome, IfSome};
ghost use Rattle.base.specs.Refusals.{outcome};
ghost use Rattle.block.specs.Accesses.{Put};
ghost use Rattle.block.specs.Replays.{is_record, put_of, record_bytes, replay_outcome, replay_puts};

use crate::access::Block;
use crate::place::Place;
use crate::words::PLACES;
use base::error::Error;

// The longest write list.
const MOST_RECORDS: usize = 8_192;

/// A record of a write list: the put of a word at a place.
#[derive(Clone, Copy)]
pub struct Record {
    pub at: Place,
    pub word: u32,
}

impl Record {
    // Nobody outside may read one, since its place may be a protected one.
    fn read(bytes: &[u8; 8]) -> Option<Record>
        ensures is { IsSome result ↔ IsTrue (is_record bytes.now) }
        ensures put { IfSome result (λ r. Put r.at.index r.word ≡ put_of bytes.now) }
    {
        let [place, 0, 0, 0, w0, w1, w2, w3] = *bytes else {
            return None;
        };
        if place as usize >= PLACES {
            return None;
        }
        Some(Record {
            at: Place::at(place),
            word: u32::from_le_bytes([w0, w1, w2, w3]),
        })
    }
}

impl From<Record> for [u8; 8] {
    ghost from_gives = { λ r bytes. bytes ≡ record_bytes r.at.index r.word };

    fn from(Record { at, word }: Record) -> [u8; 8] {
        let [w0, w1, w2, w3] = word.to_le_bytes();
        [at.index(), 0, 0, 0, w0, w1, w2, w3]
    }
}

/// Puts the records of a list in their order. A list of a wrong length is refused before any put; at a bad record the
/// earlier ones have been put.
#[tactic(auto, unfolding(crate::specs::Replays::replay_outcome, crate::specs::Replays::replay_puts))]
pub fn replay<B: Block>(block: &mut B, list: &[u8]) -> Result<(), Error>
    ensures answer { outcome result ≡ replay_outcome list.now }
    ensures did { B.Block.model.did block.old (replay_puts list.now) block.new }
{
    let (records, rest) = list.as_chunks::<8>();
    if records.len() > MOST_RECORDS || !rest.is_empty() {
        return Err(Error::BadLength(records.len().min(MOST_RECORDS)));
    }
    for (index, bytes) in records.iter().enumerate() {
        let Record { at, word } = Record::read(bytes).ok_or(Error::BadRecord(index))?;
        block.put(at, word);
    }
    Ok(())
}
