ghost use Rattle.std.specs.Prelude.{⊤, ◌≡◌, false, IfOk, option_map};
ghost use Rattle.std.specs.Str.{IsUtf8};
ghost use Rattle.serde_json.specs.View.{view};
ghost use Rattle.serde_json.specs.Written.{has_float};
ghost use Rattle.bsp_records.specs.Params.{IsTarget};
ghost use Rattle.bsp_records.specs.Tasks.{task_id_data, compile_task_data, test_task_data, test_start_data, start_kind, start_data, task_start_params_data, compile_report_data, test_status_data, test_finish_data, test_report_data, finish_kind, finish_data, task_finish_params_data, HasTaskIdTexts, HasStartBodyTexts, HasTaskStartTexts, HasCompileReportTexts, HasTestFinishTexts, HasFinishBodyTexts, HasTaskFinishTexts};

use crate::identifiers::BuildTargetIdentifier;
use crate::results::StatusCode;
use crate::writing::{Write, put, put_kind, put_some};
use ob_text::{Items, NoMemory, Text};
use serde_json::{Map, Value};
use std::alloc::Global;

/// The id of a task (Build Server Protocol 2.2, TaskId). A task inside others has their ids as
/// parents.
#[derive(Debug, Drop)]
pub struct TaskId {
    pub id: Text,
    pub parents: Option<Items<Text>>,
}

/// A target is compiled.
#[derive(Debug, Drop)]
pub struct CompileTask {
    pub target: BuildTargetIdentifier,
}

/// A target is tested.
#[derive(Debug, Drop)]
pub struct TestTask {
    pub target: BuildTargetIdentifier,
}

/// A test is run.
#[derive(Debug, Drop)]
pub struct TestStart {
    pub display_name: Text,
}

/// What a start tells of its task, by its data kind.
#[derive(Debug, Drop)]
pub enum TaskStartBody {
    CompileTask(CompileTask),
    TestTask(TestTask),
    TestStart(TestStart),
}

/// A task starts (Build Server Protocol 2.2, build/taskStart). The body is the member `data`, and its
/// kind `dataKind`.
#[derive(Debug)]
pub struct TaskStartParams {
    pub task_id: TaskId,
    pub message: Option<Text>,
    pub body: Option<TaskStartBody>,
}

impl Drop for TaskStartParams {
    fn drop(self) {
        let Self {
            task_id: _,
            message: _,
            body: _,
        } = self;
    }
}

/// What came of a target that was compiled. `no_op` says that nothing of it had to be checked.
#[derive(Debug)]
pub struct CompileReport {
    pub target: BuildTargetIdentifier,
    pub origin_id: Option<Text>,
    pub errors: u64,
    pub warnings: u64,
    pub no_op: Option<bool>,
}

impl Drop for CompileReport {
    fn drop(self) {
        let Self {
            target: _,
            origin_id: _,
            errors: _,
            warnings: _,
            no_op: _,
        } = self;
    }
}

/// How a test ended (Build Server Protocol 2.2, TestStatus). Its number in the protocol is `status as u8`.
#[derive(Clone, Copy, Debug, PartialEq, Eq)]
pub enum TestStatus {
    Passed = 1,
    Failed,
    Ignored,
    Cancelled,
    Skipped,
}

/// What came of a test.
#[derive(Debug, Drop)]
pub struct TestFinish {
    pub display_name: Text,
    pub message: Option<Text>,
    pub status: TestStatus,
}

/// What came of the tests of a target.
#[derive(Debug)]
pub struct TestReport {
    pub target: BuildTargetIdentifier,
    pub passed: u64,
    pub failed: u64,
    pub ignored: u64,
    pub cancelled: u64,
    pub skipped: u64,
}

impl Drop for TestReport {
    fn drop(self) {
        let Self {
            target: _,
            passed: _,
            failed: _,
            ignored: _,
            cancelled: _,
            skipped: _,
        } = self;
    }
}

/// What a finish tells of its task, by its data kind.
#[derive(Debug, Drop)]
pub enum TaskFinishBody {
    CompileReport(CompileReport),
    TestFinish(TestFinish),
    TestReport(TestReport),
}

/// A task finishes (Build Server Protocol 2.2, build/taskFinish). The body is the member `data`, and
/// its kind `dataKind`.
#[derive(Debug)]
pub struct TaskFinishParams {
    pub task_id: TaskId,
    pub status: StatusCode,
    pub body: Option<TaskFinishBody>,
}

impl Drop for TaskFinishParams {
    fn drop(self) {
        let Self {
            task_id: _,
            status: _,
            body: _,
        } = self;
    }
}

/// Writes the params of build/taskStart.
pub fn write_task_start_params(alloc: Global, params: &TaskStartParams) -> Result<Value, NoMemory>
    requires { HasTaskStartTexts params.now }
    ensures data { IfOk result (λ value. view value ≡ task_start_params_data params.now) }
    ensures exact { IfOk result (λ value. has_float (view value) ≡ false) }
{
    params.write(alloc)
}

/// Writes the params of build/taskFinish.
pub fn write_task_finish_params(alloc: Global, params: &TaskFinishParams) -> Result<Value, NoMemory>
    requires { HasTaskFinishTexts params.now }
    ensures data { IfOk result (λ value. view value ≡ task_finish_params_data params.now) }
    ensures exact { IfOk result (λ value. has_float (view value) ≡ false) }
{
    params.write(alloc)
}

impl Write for TaskId {
    ghost data_of = { task_id_data };

    ghost HasTexts = { HasTaskIdTexts };

    fn write(&self, alloc: Global) -> Result<Value, NoMemory> {
        let mut object = Map::new(alloc);
        put(alloc, &mut object, "id", &self.id)?;
        put_some(alloc, &mut object, "parents", &self.parents)?;
        Ok(Value::Object(object))
    }
}

impl Write for CompileTask {
    ghost data_of = { compile_task_data };

    ghost HasTexts = { λ task. IsTarget task.target };

    fn write(&self, alloc: Global) -> Result<Value, NoMemory> {
        let mut object = Map::new(alloc);
        put(alloc, &mut object, "target", &self.target)?;
        Ok(Value::Object(object))
    }
}

impl Write for TestTask {
    ghost data_of = { test_task_data };

    ghost HasTexts = { λ task. IsTarget task.target };

    fn write(&self, alloc: Global) -> Result<Value, NoMemory> {
        let mut object = Map::new(alloc);
        put(alloc, &mut object, "target", &self.target)?;
        Ok(Value::Object(object))
    }
}

impl Write for TestStart {
    ghost data_of = { test_start_data };

    ghost HasTexts = { λ start. IsUtf8 start.display_name };

    fn write(&self, alloc: Global) -> Result<Value, NoMemory> {
        let mut object = Map::new(alloc);
        put(alloc, &mut object, "displayName", &self.display_name)?;
        Ok(Value::Object(object))
    }
}

impl TaskStartBody {
    fn kind(&self) -> &'static str
        ensures { result.now ≡ start_kind self.now }
    {
        match self {
            TaskStartBody::CompileTask(_) => "compile-task",
            TaskStartBody::TestTask(_) => "test-task",
            TaskStartBody::TestStart(_) => "test-start",
        }
    }
}

impl Write for TaskStartBody {
    ghost data_of = { start_data };

    ghost HasTexts = { HasStartBodyTexts };

    fn write(&self, alloc: Global) -> Result<Value, NoMemory> {
        match self {
            TaskStartBody::CompileTask(task) => task.write(alloc),
            TaskStartBody::TestTask(task) => task.write(alloc),
            TaskStartBody::TestStart(start) => start.write(alloc),
        }
    }
}

impl Write for TaskStartParams {
    ghost data_of = { task_start_params_data };

    ghost HasTexts = { HasTaskStartTexts };

    fn write(&self, alloc: Global) -> Result<Value, NoMemory> {
        let mut object = Map::new(alloc);
        put(alloc, &mut object, "taskId", &self.task_id)?;
        put_some(alloc, &mut object, "message", &self.message)?;
        put_kind(alloc, &mut object, start_kind_of(&self.body))?;
        put_some(alloc, &mut object, "data", &self.body)?;
        Ok(Value::Object(object))
    }
}

fn start_kind_of(body: &Option<TaskStartBody>) -> Option<&'static str>
    ensures { option_map (λ kind. kind.now) result ≡ option_map start_kind body.now }
{
    match body {
        Some(body) => Some(body.kind()),
        None => None,
    }
}

fn finish_kind_of(body: &Option<TaskFinishBody>) -> Option<&'static str>
    ensures { option_map (λ kind. kind.now) result ≡ option_map finish_kind body.now }
{
    match body {
        Some(body) => Some(body.kind()),
        None => None,
    }
}

impl Write for CompileReport {
    ghost data_of = { compile_report_data };

    ghost HasTexts = { HasCompileReportTexts };

    fn write(&self, alloc: Global) -> Result<Value, NoMemory> {
        let mut object = Map::new(alloc);
        put(alloc, &mut object, "target", &self.target)?;
        put_some(alloc, &mut object, "originId", &self.origin_id)?;
        put(alloc, &mut object, "errors", &self.errors)?;
        put(alloc, &mut object, "warnings", &self.warnings)?;
        put_some(alloc, &mut object, "noOp", &self.no_op)?;
        Ok(Value::Object(object))
    }
}

impl Write for TestStatus {
    ghost data_of = { test_status_data };

    ghost HasTexts = { λ _. ⊤ };

    fn write(&self, _alloc: Global) -> Result<Value, NoMemory> {
        Ok(Value::from(*self as u8))
    }
}

impl Write for TestFinish {
    ghost data_of = { test_finish_data };

    ghost HasTexts = { HasTestFinishTexts };

    fn write(&self, alloc: Global) -> Result<Value, NoMemory> {
        let mut object = Map::new(alloc);
        put(alloc, &mut object, "displayName", &self.display_name)?;
        put_some(alloc, &mut object, "message", &self.message)?;
        put(alloc, &mut object, "status", &self.status)?;
        Ok(Value::Object(object))
    }
}

impl Write for TestReport {
    ghost data_of = { test_report_data };

    ghost HasTexts = { λ report. IsTarget report.target };

    fn write(&self, alloc: Global) -> Result<Value, NoMemory> {
        let mut object = Map::new(alloc);
        put(alloc, &mut object, "target", &self.target)?;
        put(alloc, &mut object, "passed", &self.passed)?;
        put(alloc, &mut object, "failed", &self.failed)?;
        put(alloc, &mut object, "ignored", &self.ignored)?;
        put(alloc, &mut object, "cancelled", &self.cancelled)?;
        put(alloc, &mut object, "skipped", &self.skipped)?;
        Ok(Value::Object(object))
    }
}

impl TaskFinishBody {
    fn kind(&self) -> &'static str
        ensures { result.now ≡ finish_kind self.now }
    {
        match self {
            TaskFinishBody::CompileReport(_) => "compile-report",
            TaskFinishBody::TestFinish(_) => "test-finish",
            TaskFinishBody::TestReport(_) => "test-report",
        }
    }
}

impl Write for TaskFinishBody {
    ghost data_of = { finish_data };

    ghost HasTexts = { HasFinishBodyTexts };

    fn write(&self, alloc: Global) -> Result<Value, NoMemory> {
        match self {
            TaskFinishBody::CompileReport(report) => report.write(alloc),
            TaskFinishBody::TestFinish(finish) => finish.write(alloc),
            TaskFinishBody::TestReport(report) => report.write(alloc),
        }
    }
}

impl Write for TaskFinishParams {
    ghost data_of = { task_finish_params_data };

    ghost HasTexts = { HasTaskFinishTexts };

    fn write(&self, alloc: Global) -> Result<Value, NoMemory> {
        let mut object = Map::new(alloc);
        put(alloc, &mut object, "taskId", &self.task_id)?;
        put(alloc, &mut object, "status", &self.status)?;
        put_kind(alloc, &mut object, finish_kind_of(&self.body))?;
        put_some(alloc, &mut object, "data", &self.body)?;
        Ok(Value::Object(object))
    }
}
