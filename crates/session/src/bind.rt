// The binding rule: which definition a reference takes.
ghost use Rattle.std.specs.Prelude.{◌≡◌};
ghost use Rattle.elf.specs.Meaning.{reference_at};
ghost use Rattle.session.specs.Binding.{taken};

use super::reference::{head, name_to, reference, version_to};
use catalogue::catalogue::Catalogue;
use elf::symbol::Wanted;
use scope::scope::Scope;

// The definition that a reference takes, or none.
pub fn bind<S: Scope>(scope: &mut S, object: u16, place: usize) -> Option<(u16, u16)>
    ensures objects { S.Scope.objects scope.new ≡ S.Scope.objects scope.old }
    ensures order { S.Scope.order scope.new ≡ S.Scope.order scope.old }
    ensures taken { result ≡ taken (S.Scope.objects scope.old) (S.Scope.order scope.old) object (reference_at (S.Scope.objects scope.old) object place) }
{
    let asked = reference(scope, object, place);
    if asked.own && asked.protected {
        return Some((object, asked.number));
    }
    let mut name = [0; 255];
    let len = name_to(scope, object, place, &mut name);
    let mut version = [0; 255];
    let versioned = version_to(scope, object, place, &mut version);
    let wanted = Wanted {
        name: &name[..len],
        version: versioned.map(|len| &version[..len]),
    };
    if head(scope, object).symbolic {
        if let Some(symbol) = scope.catalogue().offer(object, wanted) {
            return Some((object, symbol));
        }
    }
    scope.find(wanted)
}
