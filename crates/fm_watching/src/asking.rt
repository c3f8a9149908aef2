ghost use Rattle.std.specs.Prelude.{◌≡◌, ◌<◌, ℕ, length, IfSome, Option};
ghost use Rattle.std.specs.Option.{option_map};
ghost use Rattle.fm_watching.specs.Asked.{IsPlaced, place_by};

use fm_guide::{Guide, Menu};

fn ask_one(guide: &mut Box<dyn Guide>, menu: &Menu) -> usize
    ensures within { result < length menu.now }
    ensures answer { IfSome (always guide.old) (λ n. result ≡ place_by n (length menu.now)) }
    ensures same { always guide.new ≡ always guide.old }
{
    let count = menu.len();
    (guide.choose(menu) % count as u64) as usize
}

/// The place of the offer that the guide's answer names, modulo their count; without a guide that of the first one.
pub fn ask(guide: &mut Option<&mut Box<dyn Guide>>, menu: &Menu) -> usize
    ensures within { result < length menu.now }
    ensures placed { IsPlaced (option_map (λ g. always g.now) guide.old) (length menu.now) result }
    ensures same { option_map (λ g. always g.now) guide.new ≡ option_map (λ g. always g.now) guide.old }
{
    let _some = menu.len();
    match guide {
        None => 0,
        Some(guide) => ask_one(guide, menu),
    }
}
