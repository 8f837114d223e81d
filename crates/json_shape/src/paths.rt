ghost use Rattle.std.specs.Prelude.{◌≡◌, ◌+◌, ◌≤◌, ◌++◌, length, max, suc, IfOk, IsTrue};
ghost use Rattle.ob_text.specs.Ascii.{IsGraphic};
ghost use Rattle.json_shape.specs.Paths.{is_graphic};
ghost use Rattle.json_shape.specs.Shapes.{item_step, member_step, named_path};

use ob_text::{NoMemory, Text};
use std::alloc::Global;

/// The path behind a step to a member.
#[tactic(auto, using(crate::proofs::PathLaws::graphic_member, crate::proofs::PathLaws::length_member))]
pub(crate) fn member_path(alloc: Global, name: &str, path: &Text) -> Result<Text, NoMemory>
    requires name { IsTrue (is_graphic name.now) }
    requires path { IsGraphic path.now }
    ensures whole { IfOk result (λ whole. whole ≡ member_step name.now ++ path.now) }
    ensures graphic { IfOk result IsGraphic }
    ensures short { IfOk result (λ whole. length whole ≡ suc (length name.now) + length path.now) }
{
    Text::new(alloc, b".")?
        .followed_by(name.as_bytes())?
        .followed_by(path.as_slice())
}

/// The path behind a step to an item.
#[tactic(auto, using(crate::proofs::PathLaws::graphic_item, crate::proofs::PathLaws::length_item))]
pub(crate) fn item_path(alloc: Global, index: usize, path: &Text) -> Result<Text, NoMemory>
    requires { IsGraphic path.now }
    ensures whole { IfOk result (λ whole. whole ≡ item_step index ++ path.now) }
    ensures graphic { IfOk result IsGraphic }
    ensures short { IfOk result (λ whole. length whole ≤ 22 + length path.now) }
{
    let step = format!(in alloc; "[{index}]")?;
    Text::new(alloc, step.as_bytes())?.followed_by(path.as_slice())
}

/// The path as it is told: without the first dot, and the name of the whole where there is no step.
#[tactic(auto, using(crate::proofs::PathLaws::graphic_rest))]
pub(crate) fn named(alloc: Global, whole: &str, path: &Text) -> Result<Text, NoMemory>
    requires name { IsTrue (is_graphic whole.now) }
    requires path { IsGraphic path.now }
    ensures named { IfOk result (λ named. named ≡ named_path whole.now path.now) }
    ensures graphic { IfOk result IsGraphic }
    ensures short { IfOk result (λ named. length named ≤ max (length whole.now) (length path.now)) }
{
    match path.as_slice() {
        [] => Text::new(alloc, whole.as_bytes()),
        [_, path @ ..] => Text::new(alloc, path),
    }
}
