// Runs of stores: words put one after the other into a part that is lent. proofs/Runs.antt has the laws of such runs, for buffers of any width.
#![tactic(auto)]

ghost use Rattle.std.specs.Prelude.{◌≡◌, ◌≤◌, length};
ghost use Rattle.std.proofs.lemmas.List.Edits.{sets};

// Puts the words at the start of the part.
#[tactic(auto, using(crate::proofs::Runs::sets_front))]
pub fn put_words(part: &mut [u32], words: &[u32])
    requires { length words.now ≤ length part.old }
    ensures { part.new ≡ sets part.old 0 words.now }
{
    part[..words.len()].copy_from_slice(words);
}
