// The recording of bindings.
ghost use Rattle.std.specs.Prelude.{◌≡◌, ◌+◌, ◌≤◌, ◌++◌, length};
ghost use Rattle.elf.specs.Meaning.{object as object_of};
ghost use Rattle.session.specs.Binding.{bindings_of, bindings_of_all};
ghost use Rattle.session.specs.Checks.{references_of_all};
ghost use Rattle.session.specs.View.{recorded};

use super::bind::bind;
use super::reference::head;
use super::table::{Row, Rows};
use scope::scope::Scope;

// Binds and records the references of an object.
fn bind_object<S: Scope>(scope: &mut S, rows: &mut Rows, object: u16)
    requires { length rows.old + length (object_of (S.Scope.objects scope.old) object).references ≤ 4096 }
    ensures objects { S.Scope.objects scope.new ≡ S.Scope.objects scope.old }
    ensures order { S.Scope.order scope.new ≡ S.Scope.order scope.old }
    ensures length { length rows.new ≡ length rows.old + length (object_of (S.Scope.objects scope.old) object).references }
    ensures rows { recorded (S.Scope.objects scope.old) rows.new ≡ recorded (S.Scope.objects scope.old) rows.old ++ bindings_of (S.Scope.objects scope.old) (S.Scope.order scope.old) object }
{
    for place in 0..head(scope, object).references {
        let taken = bind(scope, object, place);
        rows.push(Row {
            object,
            place: place as u16,
            taken,
        });
    }
}

// Binds and records the references of some objects in turn.
pub fn bind_all<S: Scope>(scope: &mut S, rows: &mut Rows, list: &[u16])
    requires { length rows.old + references_of_all (S.Scope.objects scope.old) list.now ≤ 4096 }
    ensures objects { S.Scope.objects scope.new ≡ S.Scope.objects scope.old }
    ensures order { S.Scope.order scope.new ≡ S.Scope.order scope.old }
    ensures rows { recorded (S.Scope.objects scope.old) rows.new ≡ recorded (S.Scope.objects scope.old) rows.old ++ bindings_of_all (S.Scope.objects scope.old) (S.Scope.order scope.old) list.now }
{
    for object in list {
        bind_object(scope, rows, *object);
    }
}
