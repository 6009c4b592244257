//! Passes that act in turn on a shelf.
use crate::crowd::{Made, create, create_by_two, spread};
use crate::posts::{Names, create_at_posts};
use crate::shelf::{Event, Reply, Shelf};
use hall_posts::posts::{join_posts, split_posts};
use portal_hall::acted::Acted;
use portal_hall::hall::Hall;
use std::test::Fail;
use std::thread::join;

/// The reply, the front and the index, if the machine replied.
fn reply_of(acted: Acted<Shelf>) -> Option<(Reply, u64, Option<u64>)> {
    match acted {
        Acted::Done {
            reply,
            front,
            entry,
        } => Some((reply, front, entry)),
        Acted::OutOfMemory(_) => None,
    }
}

#[test]
fn two_passes_and_one_history(rt: HostRuntime) -> Result<(), Fail> {
    let opened = Hall::open(rt.alloc(), Shelf::new(rt.alloc()), 2);
    let (hall, mut one) = opened.ok().ok_or("no hall")?;
    let mut two = hall.split(&mut one, 1);
    assert!(rt; one.room() == 1 && two.room() == 1);
    let created = reply_of(hall.act(&rt, &mut one, Event::Create(7)));
    assert!(rt; created == Some((Reply::Created, 1, Some(0))));
    let shown = reply_of(hall.act(&rt, &mut two, Event::Show(7)));
    assert!(rt; shown == Some((Reply::Shown, 1, None)));
    let again = reply_of(hall.act(&rt, &mut two, Event::Create(7)));
    assert!(rt; again == Some((Reply::InUse, 1, None)));
    hall.join(&mut one, two);
    assert!(rt; one.room() == 2);
    let (shelf, history) = hall.close(one);
    assert!(rt; shelf.names.as_slice() == [7].as_slice() && history.len() == 1);
    Ok(())
}

#[test]
fn a_machine_that_fails_goes_on(rt: HostRuntime) -> Result<(), Fail> {
    let opened = Hall::open(rt.alloc(), Shelf::new(rt.alloc()), 1);
    let (hall, mut pass) = opened.ok().ok_or("no hall")?;
    let broken = reply_of(hall.act(&rt, &mut pass, Event::Break));
    assert!(rt; broken == Some((Reply::Faulted, 0, None)));
    let starved = reply_of(hall.act(&rt, &mut pass, Event::Starve));
    assert!(rt; starved == Some((Reply::OutOfMemory, 0, None)));
    assert!(rt; create(&rt, &hall, &mut pass, 3) == Some(0));
    let (shelf, history) = hall.close(pass);
    assert!(rt; shelf.names.len() == 1 && history.len() == 1);
    Ok(())
}

#[test]
fn each_turn_acts_once(rt: HostRuntime) -> Result<(), Fail> {
    let opened = Hall::open(rt.alloc(), Shelf::new(rt.alloc()), 2);
    let (hall, mut one) = opened.ok().ok_or("no hall")?;
    let _ = create(&rt, &hall, &mut one, 7);
    let _ = create(&rt, &hall, &mut one, 7);
    let _ = reply_of(hall.act(&rt, &mut one, Event::Show(7)));
    let _ = reply_of(hall.act(&rt, &mut one, Event::Break));
    let _ = reply_of(hall.act(&rt, &mut one, Event::Starve));
    let two = hall.split(&mut one, 1);
    let (made, others) = create_by_two(&rt, rt.alloc(), &hall, one, two, 0);
    let mut pass = made.pass;
    hall.join(&mut pass, others.pass);
    let (shelf, history) = hall.close(pass);
    assert!(rt; shelf.acts == 55 && history.len() == 50);
    Ok(())
}

#[test]
fn sixty_four_seats_act_once_each(rt: HostRuntime) -> Result<(), Fail> {
    let opened = Hall::open(rt.alloc(), Shelf::new(rt.alloc()), 64);
    let (hall, pass) = opened.ok().ok_or("no hall")?;
    let pass = spread(&rt, &hall, pass, 0);
    let (shelf, history) = hall.close(pass);
    assert!(rt; shelf.names.len() == 64 && history.len() == 64);
    Ok(())
}

/// Counts, for each of the first hundred indexes, the passes that own it.
fn note(counts: &mut [u8; 100], made: &Made) {
    for index in made.indexes.as_slice() {
        if let Some(count) = counts.get_mut(*index as usize) {
            *count = count.saturating_add(1);
        }
    }
}

#[test]
fn each_place_is_that_of_one_pass(rt: HostRuntime) -> Result<(), Fail> {
    let opened = Hall::open(rt.alloc(), Shelf::new(rt.alloc()), 4);
    let (hall, mut one) = opened.ok().ok_or("no hall")?;
    let two = hall.split(&mut one, 1);
    let three = hall.split(&mut one, 1);
    let four = hall.split(&mut one, 1);
    let alloc = rt.alloc();
    let ((a, b), (c, d)) = join(
        &rt,
        || create_by_two(&rt, alloc, &hall, one, two, 0),
        || create_by_two(&rt, alloc, &hall, three, four, 50),
    );
    let mut counts = [0u8; 100];
    for made in [&a, &b, &c, &d] {
        assert!(rt; made.indexes.len() == 25);
        note(&mut counts, made);
    }
    assert!(rt; counts.iter().all(|count| *count == 1));
    let mut pass = a.pass;
    hall.join(&mut pass, b.pass);
    hall.join(&mut pass, c.pass);
    hall.join(&mut pass, d.pass);
    let (shelf, history) = hall.close(pass);
    assert!(rt; shelf.names.len() == 100 && history.len() == 100);
    Ok(())
}

#[test]
fn posts_are_joined_with_their_works(rt: HostRuntime) -> Result<(), Fail> {
    let alloc = rt.alloc();
    let opened = Hall::open(alloc, Shelf::new(alloc), 5);
    let (hall, mut pass) = opened.ok().ok_or("no hall")?;
    let mut works = Vec::with_capacity(alloc, 4)?;
    for thread in 0..4u64 {
        works.push(Names {
            first: thread * 25,
            created: 0,
        })?;
    }
    assert!(rt; works.len() < pass.room() as usize);
    let split = split_posts(alloc, &hall, &mut pass, works);
    let mut posts = split.ok().ok_or("no posts")?;
    create_at_posts(&rt, &hall, posts.as_mut_slice());
    let mut works = Vec::with_capacity(alloc, posts.len())?;
    join_posts(&hall, &mut pass, posts, &mut works);
    assert!(rt; works.iter().all(|names| names.created == 25));
    assert!(rt; works.len() == 4 && pass.room() == 5);
    let (shelf, history) = hall.close(pass);
    assert!(rt; shelf.names.len() == 100 && history.len() == 100);
    Ok(())
}
