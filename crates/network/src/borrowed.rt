// A network that is lent is a network.
use crate::branch::Branch;
use crate::rating::Rating;
use crate::traits::{Network, RatedNetwork};

impl<'b, N: Network> Network for &'b N {
    ghost net = { λ s. N.Network.net s.now };

    ghost legal = { λ s. N.Network.legal s.now };

    fn nodes(&self) -> u32 {
        (**self).nodes()
    }

    fn branches(&self) -> u32 {
        (**self).branches()
    }

    fn branch(&self, k: u32) -> Option<Branch> {
        (**self).branch(k)
    }
}

impl<'b, N: RatedNetwork> RatedNetwork for &'b N {
    ghost rated = { λ s. N.RatedNetwork.rated s.now };

    ghost legal = { λ s. N.RatedNetwork.legal s.now };

    ghost same = { λ s. N.RatedNetwork.same s.now };

    fn rating(&self, k: u32) -> Option<Rating> {
        (**self).rating(k)
    }
}
