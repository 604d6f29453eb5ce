// The candidates of a row.
ghost use Rattle.std.specs.Prelude.{◌≡◌};
ghost use Rattle.sets.specs.Masks.{collect, lowest as lowest_below};
ghost use Rattle.search.specs.Search.{candidate};

use crate::reach::{Over, touching};
use crate::row::Row;
use network::traits::Network;
use sets::set::NodeSet;

fn candidates_of<N: Network>(network: &N, row: &Row) -> NodeSet
    ensures { result ≡ collect (N.net network.now).nodes (candidate (N.net network.now) row.now) }
{
    touching(network, Over::Present, row.inside) - row.inside - row.barred
}

pub(crate) fn lowest_candidate<N: Network>(network: &N, row: &Row) -> Option<u32>
    ensures { result ≡ lowest_below (N.net network.now).nodes (candidate (N.net network.now) row.now) }
{
    candidates_of(network, row).first()
}
