ghost use Rattle.std.specs.Prelude.{⊤, ◌≡◌, ◌≤◌, false, length, IfOk, IfSome};
ghost use Rattle.std.specs.List.{All};
ghost use Rattle.std.specs.Str.{IsUtf8};
ghost use Rattle.serde_json.specs.View.{view};
ghost use Rattle.serde_json.specs.Written.{compact_text, has_float};
ghost use Rattle.bsp_records.specs.Params.{IsTarget};
ghost use Rattle.bsp_records.specs.Results.{target_capabilities_data, build_target_data, build_targets_result_data, source_item_kind_data, source_item_data, sources_item_data, sources_result_data, inverse_sources_result_data, status_data, compile_result_data, test_result_data, run_result_data, clean_cache_result_data, HasBuildTargetTexts, HasSourceTexts, HasSourcesTexts};
ghost use Rattle.bsp_records.specs.ShortAnswers.{IsShortTargets, IsShortSources, IsShortInverseSources, answer_limit};

use crate::identifiers::BuildTargetIdentifier;
use crate::writing::{Write, put, put_some};
use ob_text::{Items, NoMemory, Text};
use serde_json::{Map, Value};
use std::alloc::Global;

/// How a build ended (Build Server Protocol 2.2, StatusCode). Its number in the protocol is
/// `status as u8`.
#[derive(Clone, Copy, Debug, PartialEq, Eq)]
pub enum StatusCode {
    Ok = 1,
    Error,
    Cancelled,
}

/// What an address of sources names (Build Server Protocol 2.2, SourceItemKind). Its number in the
/// protocol is `kind as u8`.
#[derive(Clone, Copy, Debug, PartialEq, Eq)]
pub enum SourceItemKind {
    File = 1,
    Directory,
}

/// What can be done with a target (Build Server Protocol 2.2, BuildTargetCapabilities).
#[derive(Clone, Copy, Debug, PartialEq, Eq)]
pub struct BuildTargetCapabilities {
    pub can_compile: bool,
    pub can_test: bool,
    pub can_run: bool,
}

/// A target of the workspace (Build Server Protocol 2.2, BuildTarget). `dependencies` are the direct
/// ones.
#[derive(Debug, Drop)]
pub struct BuildTarget {
    pub id: BuildTargetIdentifier,
    pub display_name: Text,
    pub tags: Items<Text>,
    pub language_ids: Items<Text>,
    pub dependencies: Items<BuildTargetIdentifier>,
    pub capabilities: BuildTargetCapabilities,
}

/// What workspace/buildTargets is answered with.
#[derive(Debug, Drop)]
pub struct BuildTargetsResult {
    pub targets: Items<BuildTarget>,
}

/// A document of a target (Build Server Protocol 2.2, SourceItem).
#[derive(Debug, Drop)]
pub struct SourceItem {
    pub uri: Text,
    pub kind: SourceItemKind,
    pub generated: bool,
}

/// The documents of one target (Build Server Protocol 2.2, SourcesItem).
#[derive(Debug, Drop)]
pub struct SourcesItem {
    pub target: BuildTargetIdentifier,
    pub sources: Items<SourceItem>,
}

/// What buildTarget/sources is answered with.
#[derive(Debug, Drop)]
pub struct SourcesResult {
    pub items: Items<SourcesItem>,
}

/// What buildTarget/inverseSources is answered with.
#[derive(Debug, Drop)]
pub struct InverseSourcesResult {
    pub targets: Items<BuildTargetIdentifier>,
}

/// What buildTarget/compile is answered with.
#[derive(Debug, Drop)]
pub struct CompileResult {
    pub origin_id: Option<Text>,
    pub status_code: StatusCode,
}

/// What buildTarget/test is answered with.
#[derive(Debug, Drop)]
pub struct TestResult {
    pub origin_id: Option<Text>,
    pub status_code: StatusCode,
}

/// What buildTarget/run is answered with.
#[derive(Debug, Drop)]
pub struct RunResult {
    pub origin_id: Option<Text>,
    pub status_code: StatusCode,
}

/// What buildTarget/cleanCache is answered with.
#[derive(Clone, Copy, Debug, PartialEq, Eq)]
pub struct CleanCacheResult {
    pub cleaned: bool,
}

/// Writes the result of workspace/buildTargets. That of a short answer prints in a part of a frame.
#[tactic(auto, using(crate::proofs::AnswerLaws::targets_print))]
pub fn write_build_targets_result(
    alloc: Global,
    answer: &BuildTargetsResult,
) -> Result<Value, NoMemory>
    requires { All HasBuildTargetTexts answer.now.targets }
    ensures data { IfOk result (λ value. view value ≡ build_targets_result_data answer.now) }
    ensures exact { IfOk result (λ value. has_float (view value) ≡ false) }
    ensures short { IsShortTargets answer.now
        → IfOk result (λ value. length (compact_text (view value)) ≤ answer_limit) }
{
    answer.write(alloc)
}

/// Writes the result of buildTarget/sources. That of a short answer prints in a part of a frame.
#[tactic(auto, using(crate::proofs::AnswerLaws::sources_print))]
pub fn write_sources_result(alloc: Global, answer: &SourcesResult) -> Result<Value, NoMemory>
    requires { All HasSourcesTexts answer.now.items }
    ensures data { IfOk result (λ value. view value ≡ sources_result_data answer.now) }
    ensures exact { IfOk result (λ value. has_float (view value) ≡ false) }
    ensures short { IsShortSources answer.now
        → IfOk result (λ value. length (compact_text (view value)) ≤ answer_limit) }
{
    answer.write(alloc)
}

/// Writes the result of buildTarget/inverseSources. That of a short answer prints in a part of a
/// frame.
#[tactic(auto, using(crate::proofs::AnswerLaws::inverse_sources_print))]
pub fn write_inverse_sources_result(
    alloc: Global,
    answer: &InverseSourcesResult,
) -> Result<Value, NoMemory>
    requires { All IsTarget answer.now.targets }
    ensures data { IfOk result (λ value. view value ≡ inverse_sources_result_data answer.now) }
    ensures exact { IfOk result (λ value. has_float (view value) ≡ false) }
    ensures short { IsShortInverseSources answer.now
        → IfOk result (λ value. length (compact_text (view value)) ≤ answer_limit) }
{
    answer.write(alloc)
}

/// Writes the result of buildTarget/compile.
pub fn write_compile_result(alloc: Global, answer: &CompileResult) -> Result<Value, NoMemory>
    requires { IfSome answer.now.origin_id IsUtf8 }
    ensures data { IfOk result (λ value. view value ≡ compile_result_data answer.now) }
    ensures exact { IfOk result (λ value. has_float (view value) ≡ false) }
{
    answer.write(alloc)
}

/// Writes the result of buildTarget/test.
pub fn write_test_result(alloc: Global, answer: &TestResult) -> Result<Value, NoMemory>
    requires { IfSome answer.now.origin_id IsUtf8 }
    ensures data { IfOk result (λ value. view value ≡ test_result_data answer.now) }
    ensures exact { IfOk result (λ value. has_float (view value) ≡ false) }
{
    answer.write(alloc)
}

/// Writes the result of buildTarget/run.
pub fn write_run_result(alloc: Global, answer: &RunResult) -> Result<Value, NoMemory>
    requires { IfSome answer.now.origin_id IsUtf8 }
    ensures data { IfOk result (λ value. view value ≡ run_result_data answer.now) }
    ensures exact { IfOk result (λ value. has_float (view value) ≡ false) }
{
    answer.write(alloc)
}

/// Writes the result of buildTarget/cleanCache.
pub fn write_clean_cache_result(alloc: Global, answer: &CleanCacheResult) -> Result<Value, NoMemory>
    ensures data { IfOk result (λ value. view value ≡ clean_cache_result_data answer.now) }
    ensures exact { IfOk result (λ value. has_float (view value) ≡ false) }
{
    answer.write(alloc)
}

impl Write for StatusCode {
    ghost data_of = { status_data };

    ghost HasTexts = { λ _. ⊤ };

    fn write(&self, _alloc: Global) -> Result<Value, NoMemory> {
        Ok(Value::from(*self as u8))
    }
}

impl Write for SourceItemKind {
    ghost data_of = { source_item_kind_data };

    ghost HasTexts = { λ _. ⊤ };

    fn write(&self, _alloc: Global) -> Result<Value, NoMemory> {
        Ok(Value::from(*self as u8))
    }
}

impl Write for BuildTargetCapabilities {
    ghost data_of = { target_capabilities_data };

    ghost HasTexts = { λ _. ⊤ };

    fn write(&self, alloc: Global) -> Result<Value, NoMemory> {
        let mut object = Map::new(alloc);
        put(alloc, &mut object, "canCompile", &self.can_compile)?;
        put(alloc, &mut object, "canTest", &self.can_test)?;
        put(alloc, &mut object, "canRun", &self.can_run)?;
        Ok(Value::Object(object))
    }
}

impl Write for BuildTarget {
    ghost data_of = { build_target_data };

    ghost HasTexts = { HasBuildTargetTexts };

    fn write(&self, alloc: Global) -> Result<Value, NoMemory> {
        let mut object = Map::new(alloc);
        put(alloc, &mut object, "id", &self.id)?;
        put(alloc, &mut object, "displayName", &self.display_name)?;
        put(alloc, &mut object, "tags", &self.tags)?;
        put(alloc, &mut object, "languageIds", &self.language_ids)?;
        put(alloc, &mut object, "dependencies", &self.dependencies)?;
        put(alloc, &mut object, "capabilities", &self.capabilities)?;
        Ok(Value::Object(object))
    }
}

impl Write for SourceItem {
    ghost data_of = { source_item_data };

    ghost HasTexts = { HasSourceTexts };

    fn write(&self, alloc: Global) -> Result<Value, NoMemory> {
        let mut object = Map::new(alloc);
        put(alloc, &mut object, "uri", &self.uri)?;
        put(alloc, &mut object, "kind", &self.kind)?;
        put(alloc, &mut object, "generated", &self.generated)?;
        Ok(Value::Object(object))
    }
}

impl Write for SourcesItem {
    ghost data_of = { sources_item_data };

    ghost HasTexts = { HasSourcesTexts };

    fn write(&self, alloc: Global) -> Result<Value, NoMemory> {
        let mut object = Map::new(alloc);
        put(alloc, &mut object, "target", &self.target)?;
        put(alloc, &mut object, "sources", &self.sources)?;
        Ok(Value::Object(object))
    }
}

impl Write for BuildTargetsResult {
    ghost data_of = { build_targets_result_data };

    ghost HasTexts = { λ p. All HasBuildTargetTexts p.targets };

    fn write(&self, alloc: Global) -> Result<Value, NoMemory> {
        let mut object = Map::new(alloc);
        put(alloc, &mut object, "targets", &self.targets)?;
        Ok(Value::Object(object))
    }
}

impl Write for SourcesResult {
    ghost data_of = { sources_result_data };

    ghost HasTexts = { λ p. All HasSourcesTexts p.items };

    fn write(&self, alloc: Global) -> Result<Value, NoMemory> {
        let mut object = Map::new(alloc);
        put(alloc, &mut object, "items", &self.items)?;
        Ok(Value::Object(object))
    }
}

impl Write for InverseSourcesResult {
    ghost data_of = { inverse_sources_result_data };

    ghost HasTexts = { λ p. All IsTarget p.targets };

    fn write(&self, alloc: Global) -> Result<Value, NoMemory> {
        let mut object = Map::new(alloc);
        put(alloc, &mut object, "targets", &self.targets)?;
        Ok(Value::Object(object))
    }
}

impl Write for CompileResult {
    ghost data_of = { compile_result_data };

    ghost HasTexts = { λ p. IfSome p.origin_id IsUtf8 };

    fn write(&self, alloc: Global) -> Result<Value, NoMemory> {
        let mut object = Map::new(alloc);
        put_some(alloc, &mut object, "originId", &self.origin_id)?;
        put(alloc, &mut object, "statusCode", &self.status_code)?;
        Ok(Value::Object(object))
    }
}

impl Write for TestResult {
    ghost data_of = { test_result_data };

    ghost HasTexts = { λ p. IfSome p.origin_id IsUtf8 };

    fn write(&self, alloc: Global) -> Result<Value, NoMemory> {
        let mut object = Map::new(alloc);
        put_some(alloc, &mut object, "originId", &self.origin_id)?;
        put(alloc, &mut object, "statusCode", &self.status_code)?;
        Ok(Value::Object(object))
    }
}

impl Write for RunResult {
    ghost data_of = { run_result_data };

    ghost HasTexts = { λ p. IfSome p.origin_id IsUtf8 };

    fn write(&self, alloc: Global) -> Result<Value, NoMemory> {
        let mut object = Map::new(alloc);
        put_some(alloc, &mut object, "originId", &self.origin_id)?;
        put(alloc, &mut object, "statusCode", &self.status_code)?;
        Ok(Value::Object(object))
    }
}

impl Write for CleanCacheResult {
    ghost data_of = { clean_cache_result_data };

    ghost HasTexts = { λ _. ⊤ };

    fn write(&self, alloc: Global) -> Result<Value, NoMemory> {
        let mut object = Map::new(alloc);
        put(alloc, &mut object, "cleaned", &self.cleaned)?;
        Ok(Value::Object(object))
    }
}
