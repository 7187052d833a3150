//! Values and terminals whose places are told apart.

use alias_base::{BlockId, EvaluationOrder, FunctionId, List};
use alias_hir::hir::Instruction;
use alias_hir::place::{Place, PlaceOrSpread, SpreadPattern};
use alias_hir::terminal::{SwitchCase, Terminal};
use alias_hir::value::{
    InstructionKind, InstructionValue, JsxAttribute, JsxTag, LValue, LValuePattern,
    LoweredFunction, ObjectPattern, ObjectProperty, ObjectPropertyOrSpread, Pattern,
};
use alias_test_units::place;
use std::alloc::Global;

/// A list of these items, or an empty one where memory runs out.
pub(crate) fn list_of<T: Copy>(alloc: Global, items: &[T]) -> List<T> {
    match List::from_slice(alloc, items) {
        Ok(list) => list,
        Err(_) => List::new(alloc),
    }
}

/// `x1[x2](x3, ...x4)`.
pub(crate) fn call(alloc: Global) -> InstructionValue {
    let args = [
        PlaceOrSpread::Place(place(3)),
        PlaceOrSpread::Spread(SpreadPattern { place: place(4) }),
    ];
    InstructionValue::MethodCall {
        receiver: place(1),
        property: place(2),
        args: list_of(alloc, &args),
    }
}

/// `[x1]: x2, ...x3`.
fn properties(alloc: Global) -> List<ObjectPropertyOrSpread> {
    let properties = [
        ObjectPropertyOrSpread::Property(ObjectProperty {
            computed: Some(place(1)),
            place: place(2),
        }),
        ObjectPropertyOrSpread::Spread(SpreadPattern { place: place(3) }),
    ];
    list_of(alloc, &properties)
}

/// `{ [x1]: x2, ...x3 }`.
pub(crate) fn object(alloc: Global) -> InstructionValue {
    InstructionValue::ObjectExpression {
        properties: properties(alloc),
    }
}

/// `{ [x1]: x2, ...x3 } = x4`.
pub(crate) fn destructuring(alloc: Global) -> InstructionValue {
    InstructionValue::Destructure {
        lvalue: LValuePattern {
            pattern: Pattern::Object(ObjectPattern {
                properties: properties(alloc),
            }),
            kind: InstructionKind::Const,
        },
        value: place(4),
    }
}

/// `<x1 a={x2} {...x3}>{x4}</x1>`.
pub(crate) fn element(alloc: Global) -> InstructionValue {
    let props = [
        JsxAttribute::Attribute { place: place(2) },
        JsxAttribute::Spread { place: place(3) },
    ];
    let children = list_of(alloc, &[place(4)]);
    InstructionValue::JsxExpression {
        tag: JsxTag::Place(place(1)),
        props: list_of(alloc, &props),
        children,
    }
}

/// `x3 = x1`.
pub(crate) fn store() -> InstructionValue {
    InstructionValue::StoreLocal {
        lvalue: LValue {
            place: place(3),
            kind: InstructionKind::Let,
        },
        value: place(1),
    }
}

/// What creates the nested function.
pub(crate) fn creation() -> InstructionValue {
    InstructionValue::FunctionExpression {
        lowered_func: LoweredFunction {
            func: FunctionId(0),
        },
    }
}

fn case(test: Option<Place>) -> SwitchCase {
    SwitchCase {
        test,
        block: BlockId(1),
    }
}

/// `switch (x1) { case x2: ; default: ; case x3: }`.
pub(crate) fn switch(alloc: Global) -> Terminal {
    let cases = [case(Some(place(2))), case(None), case(Some(place(3)))];
    Terminal::Switch {
        id: EvaluationOrder(2),
        test: place(1),
        cases: list_of(alloc, &cases),
    }
}

/// An instruction whose result is the identifier of that number.
pub(crate) fn instruction(number: u32, value: InstructionValue) -> Instruction {
    Instruction {
        id: EvaluationOrder(1),
        lvalue: place(number),
        value,
        span: None,
        effects: None,
    }
}
