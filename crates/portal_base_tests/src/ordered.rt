//! Words by their numbers: the calls that no crate above makes itself, where there is enough memory. The others are
//! tested at the lists of `org_roles`, by `portal_cases`.
use portal_base::ordered::{Key, Ordered, find, insert, put, remove, reserve};
use std::alloc::{AllocError, Global};
use std::cmp::Ordering;
use std::test::Fail;

#[derive(Drop)]
struct Numbered {
    number: u32,
    word: u8,
}

impl Ordered for Numbered {
    ghost use Rattle.std.specs.Ordering.{nat_cmp};
    ghost use Rattle.std.proofs.lemmas.Cmp.{nat_cmp_total, on_total};

    ghost order = { λ x y. nat_cmp x.number y.number };

    ghost total = { on_total (λ x. x.number) nat_cmp_total };

    fn compare(&self, other: &Numbered) -> Ordering {
        self.number.cmp(&other.number)
    }
}

impl Key<Numbered> for u32 {
    ghost use Rattle.std.specs.Ordering.{nat_cmp};
    ghost use Rattle.std.proofs.lemmas.Cmp.{nat_cmp_total};
    ghost use Rattle.portal_base.specs.Ordered.{IsKey-field, IsMonotone-field};

    ghost at = { λ key x. nat_cmp x.number key };

    ghost is_key = { λ key. IsKey-field (λ x. x.number) nat_cmp_total key };

    ghost is_monotone = { λ key. IsMonotone-field (λ x. x.number) nat_cmp_total key };

    fn compare_item(&self, item: &Numbered) -> Ordering {
        item.number.cmp(self)
    }
}

fn word_at(items: &[Numbered], number: u32) -> u8 {
    match find(items, &number) {
        Some(item) => item.word,
        None => b'-',
    }
}

// The words of the list in their order.
fn words(alloc: Global, items: &[Numbered]) -> Result<Vec<u8>, AllocError> {
    items.iter().map(|item| item.word).collect(alloc)
}

#[test]
fn changes_by_one_item(rt: HostRuntime) -> Result<(), Fail> {
    let mut items = Vec::new(rt.alloc());
    insert(
        &mut items,
        Numbered {
            number: 4,
            word: b'd',
        },
    )?;
    insert(
        &mut items,
        Numbered {
            number: 1,
            word: b'a',
        },
    )?;
    insert(
        &mut items,
        Numbered {
            number: 9,
            word: b'i',
        },
    )?;
    reserve(&mut items)?;
    assert!(rt; items.len() < items.capacity());
    put(
        &mut items,
        Numbered {
            number: 5,
            word: b'e',
        },
    );
    assert_eq!(rt;
        words(rt.alloc(), items.as_slice())?.as_slice(),
        b"adei".as_slice()
    );
    assert_eq!(rt; word_at(items.as_slice(), 5), b'e');
    assert_eq!(rt; word_at(items.as_slice(), 6), b'-');
    let gone = remove(&mut items, &4).ok_or("an item")?;
    assert_eq!(rt; gone.word, b'd');
    assert!(rt; remove(&mut items, &4).is_none());
    assert_eq!(rt;
        words(rt.alloc(), items.as_slice())?.as_slice(),
        b"aei".as_slice()
    );
    Ok(())
}
