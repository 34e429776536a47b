// A path by value, written into a lent area. Document 01, "Path".
ghost use Rattle.std.specs.Prelude.{◌≡◌, length};
ghost use Rattle.semantics.specs.Written.{written};
ghost use Rattle.semantics.specs.ReplayedPaths.{read_path};
ghost use Rattle.semantics.specs.PathWords.{path_words};

use crate::cells;
use crate::cells::part;
use crate::put::put;
use crate::stacks::{write_scopes, write_symbols};
use crate::steps::write_steps;
use semantics::replayed::Path;
use words::slots::zero;

// As many words as fit, and zeros behind them.
pub fn write(path: Path, area: &mut [u32])
    ensures { area.new ≡ written (length area.old) (path_words (read_path path)) }
{
    zero(area);
    let steps = path.steps;
    let symbols = part(&steps, path.count, cells::SYMBOLS);
    let scopes = part(&steps, path.count, cells::SCOPES);
    let mut at = put(area, 0, path.end);
    at = write_steps(path, area, at);
    at = write_symbols(&steps, symbols, area, at);
    write_scopes(&steps, scopes, area, at);
}
