// What every call but Fresh looks at first: whether the archive is of the state's length, and whether the state keeps its rules.
ghost use Rattle.std.specs.Prelude.{◌≡◌, true, IfOk};
ghost use Rattle.basics.specs.Card.{card, card_told};
ghost use Rattle.archive.specs.Layout.{good_files};
ghost use Rattle.archive.specs.Lent.{LaidOut};
ghost use Rattle.state.specs.State.{laid_out};
ghost use Rattle.state.specs.Validity.{state_number, valid};
ghost use Rattle.state.specs.Lent.{IsTaken};

use crate::parts::State;
use archive::layout::{FILES, File};
use basics::card::Refusal;

impl State {
    // Judges a state where it stands, and the length of the archive that comes with it, which is looked at first. Answers where the
    // state's files lie in the archive.
    #[tactic(auto, using(crate::proofs::Clauses::bad_files), unfolding(crate::specs::Validity::state_number))]
    pub fn check(&self, size: usize) -> Result<[File; FILES], Refusal>
        ensures told { card_told result ≡ card (state_number self.now size) 0 }
        ensures taken { IfOk result (IsTaken self.now size) }
    {
        if size != self.site.archive_length as usize {
            return Err(Refusal::Memory);
        }
        // a match and no `?`, which copies the eleven files once more: with this, and `keeps_rules` apart, 1.3 KB of stack are spared
        match self.files.layout.files(self.site.alarm_depth()) {
            Some(files) => {
                if !self.keeps_rules(&files, size) {
                    return Err(Refusal::Foreign);
                }
                Ok(files)
            }
            None => Err(Refusal::Foreign),
        }
    }

    // Whether all parts keep their rules, where the laid-out definitions do and lay the files out so. It is not put into its caller, where
    // the files would be copied one field after the other: a Lock takes a fifth less time so.
    #[tactic(auto, unfolding(crate::specs::Validity::valid, crate::specs::Validity::files_valid))]
    #[inline(never)]
    fn keeps_rules(&self, files: &[File; FILES], size: usize) -> bool
        requires good { good_files self.now.files.layout.groups ≡ true }
        requires laid { LaidOut (laid_out self.now) files.now }
        requires same { size ≡ self.now.site.archive_length }
        ensures { result ≡ valid self.now }
    {
        // the files first: of a state that is Foreign by them nothing else is looked at
        self.files.fit(files, &self.line.requested, size)
            && (self.settings.is_valid(&self.files.layout)
                & self.flags.is_valid()
                & self.site.is_valid())
    }
}
