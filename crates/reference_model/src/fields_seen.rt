// The fields of dots.
ghost use Rattle.std.specs.Prelude.{◌≡◌};
ghost use Rattle.operations.specs.Conditions.{fields_in};
ghost use Rattle.reference_model.specs.Plain.{knowledge_of};
ghost use Rattle.reference_model.specs.Views.{fields_of, fields_over};

use crate::Operation;
use crate::fields::Fields;
use dots::Dot;

// The fields of a dot: of each the setting of the greatest stamp among the operations that assert the dot.
pub(crate) fn fields_in(operations: &[Operation], dot: Dot) -> Fields<'_>
    ensures { fields_of result ≡ fields_in (knowledge_of operations.now) dot }
{
    let mut fields = Fields::none();
    for operation in operations {
        if operation.asserts(dot) {
            fields = fields.joined(&operation.fields());
        }
    }
    fields
}

// The fields of these dots together: of each the setting of the greatest stamp, for equal stamps that of the first
// dot.
pub(crate) fn fields_over<'a>(operations: &'a [Operation], dots: &[Dot]) -> Fields<'a>
    ensures { fields_of result ≡ fields_over (knowledge_of operations.now) dots.now }
{
    let mut fields = Fields::none();
    for dot in dots {
        fields = fields.joined(&fields_in(operations, *dot));
    }
    fields
}
