// What a list answers.
ghost use Rattle.std.specs.Prelude.{◌≡◌, refl};
ghost use Rattle.std.specs.List.{slice_get};
ghost use Rattle.network.specs.Meaning.{list_net, list_rated};
ghost use Rattle.network.specs.Legality.{legal-list, legal-list_rated};

use crate::branch::{Branch, TableRow};
use crate::list::List;
use crate::rating::Rating;
use crate::traits::{Network, RatedNetwork};

impl<'a> List<'a> {
    fn row(&self, k: u32) -> Option<TableRow>
        ensures { result ≡ slice_get self.now.table.now k }
    {
        self.table.get(k as usize).copied()
    }
}

impl<'a> Network for List<'a> {
    ghost net = { λ s. list_net s.nodes s.table.now };

    ghost legal = { λ s. legal-list s.nodes s.table.now s.few s.short s.sound };

    fn nodes(&self) -> u32 {
        self.nodes
    }

    fn branches(&self) -> u32 {
        self.table.len() as u32
    }

    fn branch(&self, k: u32) -> Option<Branch> {
        self.row(k).map(|row| row.branch())
    }
}

impl<'a> RatedNetwork for List<'a> {
    ghost rated = { λ s. list_rated s.nodes s.table.now };

    ghost legal = { λ s. legal-list_rated s.nodes s.table.now s.few s.short s.sound };

    ghost same = { λ _. refl };

    fn rating(&self, k: u32) -> Option<Rating> {
        self.row(k).and_then(|row| row.rating())
    }
}
