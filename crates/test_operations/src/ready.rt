//! Whether a step can be taken, at run time.

ghost use Rattle.std.specs.Prelude.{◌≡◌, ◌<◌, ℕ, true, is_some, option_map, unwrap_or};
ghost use Rattle.jmount.specs.Shown.{top_at};
ghost use Rattle.jmount.specs.Tree.{ObjectOf, object};
ghost use Rattle.jsteps.specs.Steps.{IsDefined};
ghost use Rattle.jsteps.specs.Ready.{HasRoom};

use jsteps::{Index, Step};

/// Whether an object is there and has a version left.
fn has_version(index: &Index, ino: u32) -> bool
    ensures there { result ≡ true → is_some (object index.now.tree ino) ≡ true }
    ensures left { result ≡ true → top_at index.now.tops ino < 0xFFFFFFFF }
{
    index.object(ino).is_some() && index.top(ino) < u32::MAX
}

/// The size of an object, and 0 where there is none.
fn size_of(index: &Index, ino: u32) -> u32
    ensures { result
        ≡ unwrap_or (option_map (λ (o : ObjectOf ℕ). o.body) (object index.now.tree ino)) 0 }
{
    match index.object(ino) {
        Some(object) => object.size,
        None => 0,
    }
}

/// Whether a step can be taken.
#[tactic(auto, using(jsteps::proofs::OwnLemmas::own_short))]
pub fn is_ready(index: &Index, step: &Step<'_>) -> bool
    ensures defined { result ≡ true → IsDefined index.now.tree step.now }
    ensures room { result ≡ true → HasRoom index.now step.now }
{
    match step {
        Step::MakeObject { target, .. } => {
            index.next() <= u64::from(u32::MAX) && target.len() <= u32::MAX as usize
        }
        Step::SetName { directory, .. } => has_version(index, *directory),
        Step::ClearName { directory, .. } => has_version(index, *directory),
        Step::Put {
            ino,
            offset,
            bytes,
            ..
        } => {
            has_version(index, *ino)
                && *offset <= size_of(index, *ino)
                && bytes.len() <= (u32::MAX - *offset) as usize
        }
        Step::Zero { ino, count, .. } => {
            has_version(index, *ino) && *count <= u32::MAX - size_of(index, *ino)
        }
        Step::Cut { ino, size, .. } => { has_version(index, *ino) && *size <= size_of(index, *ino) }
        Step::SetAttributes { ino, .. } => {
            has_version(index, *ino) && size_of(index, *ino) <= u32::MAX
        }
    }
}
