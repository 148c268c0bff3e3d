//! How far the right side of one of two rows is above what the row has to itself, and what outweighs it.

ghost use Rattle.std.specs.Prelude.{IsTrue, ◌≡◌, ◌+◌, ◌*◌, ◌≤◌, unsigned_abs};
ghost use Rattle.set_rules.specs.Limits.{row_limit};
ghost use Rattle.farkas_check.specs.Sides.{gain_of, margin_of, shared_of, IsOutweighed, IsOutweighedBy};

use crate::factors::halvings_of;
use crate::side::Side;

impl Side {
    /// How far the right side is above what the row has to itself.
    pub(crate) fn gain(&self) -> u128
        ensures value { result ≡ gain_of self.now }
        ensures within { result ≤ row_limit }
    {
        self.right.unsigned_abs().saturating_sub(self.own)
    }

    /// How far it is below.
    pub(crate) fn margin(&self) -> u128
        ensures value { result ≡ margin_of self.now }
        ensures within { result ≤ row_limit }
    {
        self.own.saturating_sub(self.right.unsigned_abs())
    }

    /// The right side and what the row has to itself.
    pub(crate) fn reach(&self) -> u128
        ensures value { result ≡ unsigned_abs self.now.right + self.now.own }
        ensures within { result ≤ 2 * row_limit }
    {
        self.right.unsigned_abs() + self.own
    }

    /// The sum of what it shares with the other row, and is no more to itself than one coefficient.
    fn shared(&self) -> u128
        ensures value { result ≡ shared_of self.now }
        ensures within { result ≤ row_limit }
    {
        self.sum - self.own
    }

    /// Whether a loss on the other row outweighs the gain of this one, however both are multiplied. The products are of
    /// 31 bits, rounded so that none is taken for outweighed that is not.
    pub(crate) fn is_outweighed(&self, loss: u128, other: &Side) -> bool
        requires { loss ≤ 2 * row_limit }
        ensures { IsTrue result → IsOutweighed self.now loss other.now }
    {
        let gain = self.gain();
        if gain == 0 {
            return true;
        }
        gain <= self.shared() && is_product_within(gain, other.shared(), loss, self.shared())
    }

    /// Whether the other row gains nothing, and outweighs the gain of this one.
    pub(crate) fn is_outweighed_by(&self, other: &Side) -> bool
        ensures { IsTrue result → IsOutweighedBy self.now other.now }
    {
        other.gain() == 0 && self.is_outweighed(other.margin(), other)
    }
}

/// Whether the product of the first two numbers is within that of the others, as far as 31 bits of each show.
fn is_product_within(a: u128, b: u128, c: u128, d: u128) -> bool
    ensures { IsTrue result → a * b ≤ c * d }
{
    let halvings = halvings_of(a.max(b).max(c).max(d));
    ((a >> halvings) + 1) * ((b >> halvings) + 1) <= (c >> halvings) * (d >> halvings)
}
