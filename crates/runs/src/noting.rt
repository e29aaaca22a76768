// What the watched see, word after word.
ghost use Rattle.std.specs.Prelude.{◌≡◌, [], if◌then◌else◌};
ghost use Rattle.runs.specs.Row.{picked, Appended};
ghost use Rattle.runs.specs.Setups.{circle_in};
ghost use Rattle.runs.specs.Steps.{CoinsNoted, AllCoinsNoted};
ghost use Rattle.runs.specs.Watching.{watches};
ghost use Rattle.sheets.specs.Families.{family, of};

use crate::member_lists::list_of;
use crate::row::Row;
use crate::setup::Setup;
use sheets::Refusal;

impl Setup {
    fn is_watched(&self, member: u32) -> bool
        ensures { result ≡ watches self.now.watched member }
    {
        0 < member && member <= 15 && self.watched[member as usize - 1]
    }

    // What a member alone knows, if it is watched.
    pub(crate) fn note_own(
        &self,
        member: u32,
        words: &[u32],
        seen: &mut Vec<u32>,
    ) -> Result<(), Refusal>
        ensures { Appended (if watches self.now.watched member then words.now else []) seen.old.items seen.new.items result }
    {
        if self.is_watched(member) {
            seen.extend_from_slice(words)?;
        }
        Ok(())
    }

    // The shares in a row that go to the watched.
    pub(crate) fn note_shares(&self, row: &Row, seen: &mut Vec<u32>) -> Result<(), Refusal>
        ensures { Appended (picked (watches self.now.watched) self.now.n row.now) seen.old.items seen.new.items result }
    {
        for (share, watched) in row.shares().iter().zip(&self.watched[..self.n]) {
            if *watched {
                seen.push(*share)?;
            }
        }
        Ok(())
    }

    // The coins that a member is about to draw.
    pub(crate) fn note_coins(
        &self,
        member: u32,
        coins: &[&[u32]],
        seen: &mut Vec<u32>,
    ) -> Result<(), Refusal>
        ensures { CoinsNoted (circle_in self.now) (watches self.now.watched) member (of (family coins.now)) seen.old.items seen.new.items result }
    {
        let (drawn, _) = list_of(coins, member)
            .split_at_checked(self.t)
            .ok_or(Refusal::NoCoins)?;
        self.note_own(member, drawn, seen)
    }

    // The coins that all members are about to draw.
    pub(crate) fn note_all_coins(
        &self,
        coins: &[&[u32]],
        seen: &mut Vec<u32>,
    ) -> Result<(), Refusal>
        ensures { AllCoinsNoted (circle_in self.now) (watches self.now.watched) (of (family coins.now)) seen.old.items seen.new.items result }
    {
        for member in 1..=self.n {
            self.note_coins(member as u32, coins, seen)?;
        }
        Ok(())
    }
}
