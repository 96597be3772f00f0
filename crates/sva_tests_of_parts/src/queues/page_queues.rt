//! A page request queue that is filled and emptied.

use std::process::Abort;
use sva_msg::PageRequest;
use sva_prq::PageQueue;

/// A read request for a page.
fn request(page: u64) -> PageRequest {
    PageRequest {
        pasid: 1,
        index: 0,
        page,
        read: true,
        write: false,
        last: false,
    }
}

/// Is there no request to be served?
fn serves_none(queue: &mut PageQueue) -> bool {
    queue.is_empty() && queue.serve().is_none()
}

fn is_for(request: Option<PageRequest>, page: u64) -> bool {
    match request {
        Some(request) => request.page == page,
        None => false,
    }
}

/// Is the request for this page at the head, and the one that is served?
fn serves(queue: &mut PageQueue, page: u64) -> bool {
    is_for(queue.head(), page) && is_for(queue.serve(), page)
}

/// Requests for the pages from 0 on arrive, as many as there is room for.
fn fill<R: Abort>(rt: &R, queue: &mut PageQueue) {
    for page in 0..32 {
        assert!(rt; queue.room() == 32 - page);
        queue.arrive(request(page as u64));
    }
    assert!(rt; queue.room() == 0);
}

fn serve_three<R: Abort>(rt: &R, queue: &mut PageQueue) {
    for page in 0..3 {
        assert!(rt; serves(queue, page));
    }
    assert!(rt; !queue.is_empty());
}

#[test]
fn oldest_first(rt: HostRuntime) {
    let mut queue = PageQueue::new();
    assert!(rt; serves_none(&mut queue));
    fill(&rt, &mut queue);
    serve_three(&rt, &mut queue);
    queue.clear();
    assert!(rt; serves_none(&mut queue));
}
