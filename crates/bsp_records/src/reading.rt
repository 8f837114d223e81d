ghost use Rattle.std.specs.Prelude.{◌≡◌, nat_le, IfOk, IsTrue};
ghost use Rattle.serde_json.specs.View.{view};
ghost use Rattle.json_shape.specs.Paths.{longest};
ghost use Rattle.json_shape.specs.Reading.{IfBad, Reads};
ghost use Rattle.bsp_records.specs.Limits.{path_limit};
ghost use Rattle.bsp_records.specs.Reading.{bad_params, IsPlainPath};

use crate::BadParams;
use json_shape::{Read, read_named};
use serde_json::Value;
use std::alloc::Global;

/// Reads the params of a method.
#[tactic(auto, using(crate::proofs::ParamsLaws::plain_path))]
pub(crate) fn read_params<T: Read>(alloc: Global, value: &Value) -> Result<T, BadParams>
    requires { IsTrue (nat_le (longest T.shape) path_limit) }
    ensures read { Reads (bad_params T.shape (view value.now)) (T.value_in (view value.now)) result }
    ensures texts { IfOk result T.HasTexts }
    ensures path { IfBad result IsPlainPath }
{
    read_named(alloc, value, "params")
}
