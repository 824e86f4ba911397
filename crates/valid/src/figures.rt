// The test of the total.
ghost use Rattle.std.specs.Prelude.{◌≡◌, ◌%◌, ◌^◌, length, get_or, eqb};
ghost use Rattle.laws.specs.Lists.{total};
ghost use Rattle.laws.specs.Parts.{part};
ghost use Rattle.model.specs.Numbers.{stream_places};
ghost use Rattle.table.specs.Figures.{figures_size, first_figure};

use table::{FIGURES_WORDS, FIRST_FIGURE, TOTAL};

// Whether the total is the sum of the figures.
pub fn total_stands(w: &[u32]) -> bool
    requires { length w.now ≡ figures_size }
    ensures { result ≡ eqb (get_or w.now 0 0) (total (part first_figure stream_places w.now) % 2 ^ 32) }
{
    w[TOTAL] == table::add_up(&w[FIRST_FIGURE..FIGURES_WORDS])
}
