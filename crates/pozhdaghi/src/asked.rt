// What a call is asked, read from the caller's numbers: specs/Asked.antt.
ghost use Rattle.std.specs.Prelude.{◌≡◌};
ghost use Rattle.semantics.specs.Asked.{order_asked, limit_of, length_asked, expansions_asked, complete_asked, limits_asked};
ghost use Rattle.pozhdaghi.specs.Asked.{config_asked};

use crate::numbers::number;
use partial_state::extraction::Config;
use semantics::search::{Limit, SearchLimits, SearchOrder};

fn limit(given: u64, value: u64) -> Limit
    ensures { result ≡ limit_of given value }
{
    if 0 < given {
        return Some(value);
    }
    None
}

pub(crate) fn order(asked: &[u64]) -> SearchOrder
    ensures { result ≡ order_asked asked.now }
{
    if 0 < number(asked, 0) {
        return SearchOrder::DepthFirst;
    }
    SearchOrder::BreadthFirst
}

pub(crate) fn length(asked: &[u64]) -> Limit
    ensures { result ≡ length_asked asked.now }
{
    limit(number(asked, 1), number(asked, 2))
}

fn expansions(asked: &[u64]) -> Limit
    ensures { result ≡ expansions_asked asked.now }
{
    limit(number(asked, 3), number(asked, 4))
}

pub(crate) fn config(asked: &[u64]) -> Config
    ensures { result ≡ config_asked asked.now }
{
    Config {
        order: order(asked),
        length: length(asked),
        expansions: expansions(asked),
    }
}

fn complete(asked: &[u64]) -> Limit
    ensures { result ≡ complete_asked asked.now }
{
    limit(number(asked, 5), number(asked, 6))
}

pub(crate) fn limits(asked: &[u64]) -> SearchLimits
    ensures { result ≡ limits_asked asked.now }
{
    SearchLimits {
        length: length(asked),
        expansions: expansions(asked),
        complete: complete(asked),
    }
}
