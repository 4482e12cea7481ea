// A panel as numbers: three temperatures and two speeds, and the case of each speed.
ghost use Rattle.std.specs.Prelude.{◌≡◌};
ghost use Rattle.imager.specs.Figures.{speed_figure, speed_case, panel_figures, panel_cases};

use event::{FanSpeed, Panel};

// Revolutions a minute, 0 where there are none.
fn speed_figure(s: FanSpeed) -> f64
    ensures { result ≡ speed_figure s }
{
    match s {
        FanSpeed::NotMeasured => 0.0,
        FanSpeed::Stalled => 0.0,
        FanSpeed::Speed(x) => x,
    }
}

// Stays: C takes the case as a number.
fn speed_case(s: FanSpeed) -> u8
    ensures { result ≡ speed_case s }
{
    match s {
        FanSpeed::NotMeasured => 0,
        FanSpeed::Stalled => 1,
        FanSpeed::Speed(_) => 2,
    }
}

pub fn panel_figures(p: Panel) -> [f64; 5]
    ensures { result ≡ panel_figures p }
{
    [
        p.local,
        p.remote1,
        p.remote2,
        speed_figure(p.fan1),
        speed_figure(p.fan2),
    ]
}

pub fn panel_cases(p: Panel) -> [u8; 2]
    ensures { result ≡ panel_cases p }
{
    [speed_case(p.fan1), speed_case(p.fan2)]
}
