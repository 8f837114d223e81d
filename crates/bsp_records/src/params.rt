ghost use Rattle.std.specs.Prelude.{◌+◌, ◌≤◌, codes, length, suc, IfOk, IfSome};
ghost use Rattle.std.specs.List.{All};
ghost use Rattle.std.specs.Str.{IsUtf8};
ghost use Rattle.ob_text.specs.Ascii.{IsGraphic};
ghost use Rattle.serde_json.specs.View.{view};
ghost use Rattle.bsp_records.specs.Params.{client_capabilities, client_capabilities_in, initialize_params, initialize_params_in, targets_params, sources_params_in, clean_cache_params_in, inverse_sources_params, inverse_sources_params_in, build_params, compile_params_in, test_params_in, run_params, run_params_in, IsTarget, IsInitializeParams, BadInitializeParams, IsInverseSourcesParams, BadInverseSourcesParams, IsSourcesParams, BadSourcesParams, IsCleanCacheParams, BadCleanCacheParams, IsCompileParams, BadCompileParams, IsTestParams, BadTestParams, IsRunParams, BadRunParams, HasInitializeTexts, HasCompileTexts, HasTestTexts, HasRunTexts};
ghost use Rattle.bsp_records.specs.Limits.{origin_limit};
ghost use Rattle.json_shape.specs.Reading.{IfBad, ReadBy, Reads, if_there};
ghost use Rattle.bsp_records.specs.Reading.{IsPlainPath};
ghost use Rattle.json_shape.specs.Paths.{longest};
ghost use Rattle.json_shape.specs.Shapes.{at, bad, bad_if_there, text, text_in, text_within, list_of, member_step, under, IsTextWithin};

use crate::BadParams;
use crate::identifiers::{BuildTargetIdentifier, TextDocumentIdentifier};
use crate::kinds::{OriginId, RootUri};
use crate::reading::read_params;
use json_shape::{AnyText, Read, bad_here, optional, required, text_within};
use ob_text::{Items, Text};
use serde_json::Value;
use std::alloc::Global;

/// What a client can do: the languages that it knows.
#[derive(Debug, Drop)]
pub struct BuildClientCapabilities {
    pub language_ids: Items<Text>,
}

/// Who the client is, and where its workspace lies (Build Server Protocol 2.2, build/initialize).
/// `root_uri` has at most 4,096 bytes.
#[derive(Debug)]
pub struct InitializeParams {
    pub display_name: Text,
    pub version: Text,
    pub bsp_version: Text,
    pub root_uri: Text,
    pub capabilities: BuildClientCapabilities,
}

impl Drop for InitializeParams {
    fn drop(self) {
        let Self {
            display_name: _,
            version: _,
            bsp_version: _,
            root_uri: _,
            capabilities: _,
        } = self;
    }
}

/// The targets whose documents are asked for (Build Server Protocol 2.2, buildTarget/sources).
#[derive(Debug, Drop)]
pub struct SourcesParams {
    pub targets: Items<BuildTargetIdentifier>,
}

/// The targets of which nothing is to be remembered (Build Server Protocol 2.2, buildTarget/cleanCache).
#[derive(Debug, Drop)]
pub struct CleanCacheParams {
    pub targets: Items<BuildTargetIdentifier>,
}

/// The document whose targets are asked for (Build Server Protocol 2.2, buildTarget/inverseSources).
#[derive(Debug, Drop)]
pub struct InverseSourcesParams {
    pub text_document: TextDocumentIdentifier,
}

/// The targets to check (Build Server Protocol 2.2, buildTarget/compile). `origin_id` has at most
/// 1,024 bytes, and of `arguments` only the kind is looked at.
#[derive(Debug, Drop)]
pub struct CompileParams {
    pub targets: Items<BuildTargetIdentifier>,
    pub origin_id: Option<Text>,
}

/// The targets to test (Build Server Protocol 2.2, buildTarget/test). `origin_id` has at most
/// 1,024 bytes, and of `arguments` only the kind is looked at.
#[derive(Debug, Drop)]
pub struct TestParams {
    pub targets: Items<BuildTargetIdentifier>,
    pub origin_id: Option<Text>,
}

/// The application to run (Build Server Protocol 2.2, buildTarget/run). `origin_id` has at most
/// 1,024 bytes, and of `arguments` only the kind is looked at.
#[derive(Debug, Drop)]
pub struct RunParams {
    pub target: BuildTargetIdentifier,
    pub origin_id: Option<Text>,
}

/// Reads the params of build/initialize.
pub fn read_initialize_params(alloc: Global, value: &Value) -> Result<InitializeParams, BadParams>
    ensures read { ReadBy (IsInitializeParams (view value.now))
        (BadInitializeParams (view value.now)) result }
    ensures texts { IfOk result HasInitializeTexts }
    ensures path { IfBad result IsPlainPath }
{
    read_params(alloc, value)
}

/// Reads the params of buildTarget/sources.
pub fn read_sources_params(alloc: Global, value: &Value) -> Result<SourcesParams, BadParams>
    ensures read { ReadBy (IsSourcesParams (view value.now))
        (BadSourcesParams (view value.now)) result }
    ensures texts { IfOk result (λ p. All IsTarget p.targets) }
    ensures path { IfBad result IsPlainPath }
{
    read_params(alloc, value)
}

/// Reads the params of buildTarget/cleanCache.
pub fn read_clean_cache_params(alloc: Global, value: &Value) -> Result<CleanCacheParams, BadParams>
    ensures read { ReadBy (IsCleanCacheParams (view value.now))
        (BadCleanCacheParams (view value.now)) result }
    ensures texts { IfOk result (λ p. All IsTarget p.targets) }
    ensures path { IfBad result IsPlainPath }
{
    read_params(alloc, value)
}

/// Reads the params of buildTarget/inverseSources.
pub fn read_inverse_sources_params(
    alloc: Global,
    value: &Value,
) -> Result<InverseSourcesParams, BadParams>
    ensures read { ReadBy (IsInverseSourcesParams (view value.now))
        (BadInverseSourcesParams (view value.now)) result }
    ensures texts { IfOk result (λ p. IsUtf8 p.text_document.uri) }
    ensures path { IfBad result IsPlainPath }
{
    read_params(alloc, value)
}

/// Reads the params of buildTarget/compile.
pub fn read_compile_params(alloc: Global, value: &Value) -> Result<CompileParams, BadParams>
    ensures read { ReadBy (IsCompileParams (view value.now))
        (BadCompileParams (view value.now)) result }
    ensures texts { IfOk result HasCompileTexts }
    ensures path { IfBad result IsPlainPath }
{
    read_params(alloc, value)
}

/// Reads the params of buildTarget/test.
pub fn read_test_params(alloc: Global, value: &Value) -> Result<TestParams, BadParams>
    ensures read { ReadBy (IsTestParams (view value.now)) (BadTestParams (view value.now)) result }
    ensures texts { IfOk result HasTestTexts }
    ensures path { IfBad result IsPlainPath }
{
    read_params(alloc, value)
}

/// Reads the params of buildTarget/run.
pub fn read_run_params(alloc: Global, value: &Value) -> Result<RunParams, BadParams>
    ensures read { ReadBy (IsRunParams (view value.now)) (BadRunParams (view value.now)) result }
    ensures texts { IfOk result HasRunTexts }
    ensures path { IfBad result IsPlainPath }
{
    read_params(alloc, value)
}

fn read_origin(alloc: Global, value: &Value) -> Result<Option<Text>, BadParams>
    ensures read { Reads (under (member_step (codes "originId"))
        (bad_if_there (bad (text_within origin_limit)) (at (codes "originId") (view value.now))))
        (if_there text_in (at (codes "originId") (view value.now))) result }
    ensures texts { IfOk result (λ origin. IfSome origin (IsTextWithin origin_limit)) }
    ensures graphic { IfBad result IsGraphic }
    ensures short { IfBad result (λ path. length path ≤ suc (length (codes "originId"))) }
{
    match optional::<OriginId>(alloc, value, "originId")? {
        Some(origin) => Ok(Some(text_within(origin))),
        None => Ok(None),
    }
}

fn look_at_arguments(alloc: Global, value: &Value) -> Result<(), BadParams>
    ensures read { Reads (under (member_step (codes "arguments"))
        (bad_if_there (bad (list_of text)) (at (codes "arguments") (view value.now)))) tt result }
    ensures graphic { IfBad result IsGraphic }
    ensures short { IfBad result (λ path. length path
        ≤ suc (length (codes "arguments")) + longest (list_of text)) }
{
    match optional::<Items<AnyText>>(alloc, value, "arguments") {
        Ok(_arguments) => Ok(()),
        Err(bad) => Err(bad),
    }
}

impl Read for BuildClientCapabilities {
    ghost shape = { client_capabilities };

    ghost value_in = { client_capabilities_in };

    ghost HasTexts = { λ capabilities. All IsUtf8 capabilities.language_ids };

    fn read(alloc: Global, value: &Value) -> Result<BuildClientCapabilities, BadParams> {
        if !value.is_object() {
            return Err(bad_here(alloc));
        }
        let language_ids = required(alloc, value, "languageIds")?;
        Ok(BuildClientCapabilities { language_ids })
    }
}

impl Read for InitializeParams {
    ghost shape = { initialize_params };

    ghost value_in = { initialize_params_in };

    ghost HasTexts = { HasInitializeTexts };

    fn read(alloc: Global, value: &Value) -> Result<InitializeParams, BadParams> {
        if !value.is_object() {
            return Err(bad_here(alloc));
        }
        let display_name = required(alloc, value, "displayName")?;
        let version = required(alloc, value, "version")?;
        let bsp_version = required(alloc, value, "bspVersion")?;
        let root_uri = text_within(required::<RootUri>(alloc, value, "rootUri")?);
        let capabilities = required(alloc, value, "capabilities")?;
        Ok(InitializeParams {
            display_name,
            version,
            bsp_version,
            root_uri,
            capabilities,
        })
    }
}

impl Read for SourcesParams {
    ghost shape = { targets_params };

    ghost value_in = { sources_params_in };

    ghost HasTexts = { λ p. All IsTarget p.targets };

    fn read(alloc: Global, value: &Value) -> Result<SourcesParams, BadParams> {
        if !value.is_object() {
            return Err(bad_here(alloc));
        }
        let targets = required(alloc, value, "targets")?;
        Ok(SourcesParams { targets })
    }
}

impl Read for CleanCacheParams {
    ghost shape = { targets_params };

    ghost value_in = { clean_cache_params_in };

    ghost HasTexts = { λ p. All IsTarget p.targets };

    fn read(alloc: Global, value: &Value) -> Result<CleanCacheParams, BadParams> {
        if !value.is_object() {
            return Err(bad_here(alloc));
        }
        let targets = required(alloc, value, "targets")?;
        Ok(CleanCacheParams { targets })
    }
}

impl Read for InverseSourcesParams {
    ghost shape = { inverse_sources_params };

    ghost value_in = { inverse_sources_params_in };

    ghost HasTexts = { λ p. IsUtf8 p.text_document.uri };

    fn read(alloc: Global, value: &Value) -> Result<InverseSourcesParams, BadParams> {
        if !value.is_object() {
            return Err(bad_here(alloc));
        }
        let text_document = required(alloc, value, "textDocument")?;
        Ok(InverseSourcesParams { text_document })
    }
}

impl Read for CompileParams {
    ghost shape = { build_params };

    ghost value_in = { compile_params_in };

    ghost HasTexts = { HasCompileTexts };

    fn read(alloc: Global, value: &Value) -> Result<CompileParams, BadParams> {
        if !value.is_object() {
            return Err(bad_here(alloc));
        }
        let targets = required(alloc, value, "targets")?;
        let origin_id = read_origin(alloc, value)?;
        look_at_arguments(alloc, value)?;
        Ok(CompileParams { targets, origin_id })
    }
}

impl Read for TestParams {
    ghost shape = { build_params };

    ghost value_in = { test_params_in };

    ghost HasTexts = { HasTestTexts };

    fn read(alloc: Global, value: &Value) -> Result<TestParams, BadParams> {
        if !value.is_object() {
            return Err(bad_here(alloc));
        }
        let targets = required(alloc, value, "targets")?;
        let origin_id = read_origin(alloc, value)?;
        look_at_arguments(alloc, value)?;
        Ok(TestParams { targets, origin_id })
    }
}

impl Read for RunParams {
    ghost shape = { run_params };

    ghost value_in = { run_params_in };

    ghost HasTexts = { HasRunTexts };

    fn read(alloc: Global, value: &Value) -> Result<RunParams, BadParams> {
        if !value.is_object() {
            return Err(bad_here(alloc));
        }
        let target = required(alloc, value, "target")?;
        let origin_id = read_origin(alloc, value)?;
        look_at_arguments(alloc, value)?;
        Ok(RunParams { target, origin_id })
    }
}
