ghost use Rattle.std.specs.Prelude.{◌≡◌, MatchResult, vec_len};
ghost use Rattle.sources.specs.Meaning.{upcoming};
ghost use Rattle.hopmap.specs.Fetching.{rest, held_after};

use rows::row::Row;
use sources::fault::SourceFault;
use sources::source::Source;
use std::alloc::AllocError;

// Takes the next batch of a source into a memory that then has the rows of that batch alone, and answers as the source does:
// how many rows they are, or none at its end. At the end and at a fault the memory stays as it is.
// Callers loop: an iterator cannot lend the memory, and of a closure that is called for each batch no clause says what it leaves.
pub fn fetch<S: Source>(
    source: &mut S,
    memory: &mut Vec<Row<S::Key>>,
) -> Result<Result<Option<usize>, SourceFault>, AllocError>
where
    S::Key: Copy + Default,
    ensures answer { MatchResult result (λ answer. answer ≡ upcoming (S.Source.batches source.old) (S.Source.closing source.old)) (λ _. S.Source.batches source.new ≡ S.Source.batches source.old) }
    ensures left { MatchResult result (λ _. S.Source.batches source.new ≡ rest (S.Source.batches source.old)) (λ _. S.Source.batches source.new ≡ S.Source.batches source.old) }
    ensures closes { S.Source.closing source.new ≡ S.Source.closing source.old }
    ensures rows { MatchResult result (λ _. memory.new.items ≡ held_after (S.Source.batches source.old) memory.old.items) (λ _. memory.new.items ≡ memory.old.items) }
{
    let answer = source.size();
    if let Ok(Some(n)) = answer {
        memory.resize(n, Row::default())?;
        let _ = source.take(memory.as_mut_slice());
    }
    Ok(answer)
}
