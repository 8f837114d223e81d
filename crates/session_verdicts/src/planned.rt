use ob_text::{Items, Text};
use session_law::BuildDocument;
use std::marker::Model;

/// A build before its documents are handed out: the targets asked for, by their index in the workspace file,
/// the `originId` that was sent with it, and its documents.
pub struct Planned {
    asked: Items<u32>,
    origin: Option<Text>,
    documents: Items<BuildDocument>,
}

impl Drop for Planned {
    fn drop(self) {
        let Self {
            asked: _,
            origin: _,
            documents: _,
        } = self;
    }
}

impl Model for Planned {
    ghost use Rattle.session_verdicts.specs.Plans.{Plan, IsSoundPlan, plan_of};

    ghost Value = { Plan };

    ghost view = { plan_of };

    ghost invariant = { λ planned. IsSoundPlan (plan_of planned) };
}

impl Planned {
    ghost use Rattle.std.specs.Prelude.{◌≡◌, ◌≢◌, map};
    ghost use Rattle.std.specs.List.{AllPairs};
    ghost use Rattle.std.specs.Option.{IfSome};
    ghost use Rattle.json_shape.specs.Shapes.{IsTextWithin};
    ghost use Rattle.bsp_records.specs.Limits.{origin_limit};

    pub fn new(asked: Items<u32>, origin: Option<Text>, documents: Items<BuildDocument>) -> Planned
        requires distinct { AllPairs ◌≢◌ (map (λ document. document.key) documents) }
        requires short { IfSome origin (IsTextWithin origin_limit) }
        ensures { result ≡ record { asked = asked; origin = origin; documents = documents } }
    {
        Planned {
            asked,
            origin,
            documents,
        }
    }

    /// The targets asked for, by their index in the workspace file.
    pub fn asked(&self) -> &[u32]
        ensures { result.now ≡ self.now.asked }
    {
        self.asked.as_slice()
    }

    /// Its documents, in order.
    pub fn documents(&self) -> &[BuildDocument]
        ensures documents { result.now ≡ self.now.documents }
        ensures distinct { AllPairs ◌≢◌ (map (λ document. document.key) result.now) }
    {
        self.documents.as_slice()
    }

    /// What it is made of: the targets, the `originId` and the documents. Takes no memory.
    pub fn into_parts(self) -> (Items<u32>, Option<Text>, Items<BuildDocument>)
        ensures parts { self ≡ record { asked = result.0; origin = result.1; documents = result.2 } }
        ensures short { IfSome result.1 (IsTextWithin origin_limit) }
    {
        let Planned {
            asked,
            origin,
            documents,
        } = self;
        (asked, origin, documents)
    }

    pub fn origin(&self) -> &Option<Text>
        ensures origin { result.now ≡ self.now.origin }
        ensures short { IfSome result.now (IsTextWithin origin_limit) }
    {
        &self.origin
    }
}
